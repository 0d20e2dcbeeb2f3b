//! Gathering the links of a column, and what a search asks of them.

ghost use Rattle.std.specs.Prelude.{◌≡◌};
ghost use Rattle.bounded.specs.Items.{items_of};
ghost use Rattle.questions.specs.Asked.{links_in};
ghost use Rattle.questions.specs.Linking.{all_inside};

use crate::gathered::Gathered;
use crate::sighting::view_in;
use bounded::Bounded;
use meaning::Column;
use search::linked::Links;
use standing::Standing;

/// What the standing statements link at the column.
pub(crate) fn gather(standing: &Standing, column: Column) -> Gathered
    ensures tables { result.tables ≡ standing.now.tables }
    ensures links { items_of result.links ≡ links_in standing.now column }
{
    let view = view_in(standing, column);
    let mut links = Bounded::new(None);
    for x in standing.statements() {
        // There is room, since at most 512 statements stand.
        let _ = links.push(view.link(*x));
    }
    Gathered {
        tables: standing.tables(),
        links,
    }
}

impl Links for Gathered {
    ghost entries = { λ x. items_of x.links };

    ghost count = { λ x. x.tables };

    ghost few = { λ x. x.few };

    ghost inside = { λ x. all_inside x.tables (items_of x.links) x.inside };

    fn names(&self) -> usize {
        self.tables as usize
    }

    fn len(&self) -> usize {
        self.links.len()
    }

    fn link(&self, k: usize) -> Option<(u8, u8)> {
        self.links.get(k).flatten()
    }
}
