//! The tables in which the linker looks: what members define and use, which names of USING they have, what libraries offer, and the
//! load segments as they are laid out (GS/OS Reference, appendix F; the order of search is this project's own).
#![tactic(auto)]

mod body;
mod definitions;
mod expression;
mod layout;
mod listed;
mod names;
mod offers;
mod reading;
mod segname;
mod sizes;
mod uses;
mod usings;

pub use body::add_body;
pub use definitions::{Defined, Definitions, Origin, outer_step};
pub use expression::expression_of;
pub use layout::{LinkLayout, LoadOffset, headers};
pub use names::{Key, Matches, NameTable};
pub use offers::Offers;
pub use reading::next_record;
pub use segname::title;
pub use sizes::{size_after, size_at};
pub use uses::{Use, Uses};
pub use usings::Usings;
