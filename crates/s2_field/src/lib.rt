//! The fields of 2^16 and 2^14 elements of the BCH code (EN 302 307-1, 5.3.1), and polynomials
//! over them.
//!
//! The BCH encoder and decoder (`s2_bch`) compute in these fields. `add`, `mul` and `inv` satisfy
//! the laws of a field (the trait's law `laws`). The powers of `alpha` are all elements but zero,
//! and no two of them are equal below the order (`laws::order`). `pow`, `eval` and `degree` are
//! those of algebra.
//!
//! ```
//! let a = Gf16::alpha();
//! assert!(rt; a.mul(a.inv()).number() == 1);
//! assert!(rt; pow(a, 16).number() == 45);
//! ```
#![tactic(auto)]

mod field;
mod gf14;
mod gf16;
pub mod laws;
mod polynomial;

pub use field::{Field, pow};
pub use gf14::Gf14;
pub use gf16::Gf16;
pub use polynomial::{degree, eval};
