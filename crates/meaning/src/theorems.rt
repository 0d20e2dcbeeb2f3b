//! The theorems on fillings and columns. Each function does nothing: its contract is the theorem.

ghost use Rattle.meaning.specs.Theorems.{ApartIsGreatest, CitedIsToBlame, ColumnsDecide, FillingFits, PartsFit, ToldFollows};

/// No filling fits exactly when the columns say so, and the test computes that.
pub fn columns_decide_holds()
    ensures { ColumnsDecide }
{}

/// The filling that is written is one that fits, whenever one fits.
pub fn filling_fits_holds()
    ensures { FillingFits }
{}

/// What is told is what every filling that fits says, and the distance is the shortest.
pub fn told_follows_holds()
    ensures { ToldFollows }
{}

/// The count of apart is the greatest number of slots at which a filling that fits lets two tables differ.
pub fn apart_is_greatest_holds()
    ensures { ApartIsGreatest }
{}

/// What is cited is to blame, whatever is said of other names, and all of it is needed.
pub fn cited_is_to_blame_holds()
    ensures { CitedIsToBlame }
{}

/// A part of a list that fits, fits; neither order nor repeats matter.
pub fn parts_fit_holds()
    ensures { PartsFit }
{}
