//! Joining groups, and asking for them.

ghost use Rattle.std.specs.Prelude.{◌≡◌, ℕ, ◌<◌, ◌≤◌, List, [], ◌∷◌, ◌++◌, length, ◌==◌};
ghost use Rattle.links.specs.Chains.{ChainsFound};
ghost use Rattle.links.specs.Groups.{Roots, joined_roots, label_for, relabelled, root_of};

use crate::groups::{Groups, NAMES};
use std::array;

/// The label, or `new` where it is `old`.
fn label_for(label: u8, old: u8, new: u8) -> u8
    ensures { result ≡ label_for old new label }
{
    if label == old { new } else { label }
}

/// Writes `new` for each `old`.
fn relabel(labels: &mut [u8], old: u8, new: u8)
    ensures { labels.new ≡ relabelled old new labels.old }
{
    for label in labels.iter_mut() {
        *label = label_for(*label, old, new);
    }
}

impl Groups {
    /// Each name alone.
    pub fn new() -> Groups
        ensures { Roots [] result.root }
    {
        Groups {
            root: array::from_fn(|name| name as u8),
        }
    }

    /// The lowest name that a name is joined to; a name that is not below 128 is joined to none but itself.
    pub fn root(&self, name: u8) -> u8
        ensures { result ≡ root_of self.now.root name }
    {
        self.root.get(name as usize).copied().unwrap_or(name)
    }

    /// Are the two names joined?
    pub fn are_joined(&self, x: u8, y: u8) -> bool
        ensures { result ≡ (root_of self.now.root x == root_of self.now.root y) }
    {
        self.root(x) == self.root(y)
    }

    /// Joins two names, if both are below 128: the group with the higher root gets the lower one.
    pub fn join(&mut self, x: u8, y: u8)
        ensures relabels { self.new.root ≡ joined_roots self.old.root x y }
        ensures joins { (links : List (ℕ × ℕ)) → x < 128 → y < 128 → Roots links self.old.root → Roots (links ++ ((x, y) ∷ [])) self.new.root }
    {
        if x as usize >= NAMES || y as usize >= NAMES {
            return;
        }
        let a = self.root(x);
        let b = self.root(y);
        relabel(&mut self.root, a.max(b), a.min(b));
    }
}

/// What the definitions of chains mean: the theorem is the contract.
pub fn chains_found()
    ensures { ChainsFound }
{}
