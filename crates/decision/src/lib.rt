//! Does a list of statements fit, and which of them are to blame where an offered one does not?

#![tactic(auto)]

mod asking;
mod citation;
mod cite;
mod deciding;
mod looking;
mod sights;
mod trial;

pub use citation::Citation;
pub use cite::cited;
pub use deciding::fits;
pub use trial::Trial;
