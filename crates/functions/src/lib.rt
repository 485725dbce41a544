#![tactic(auto)]

mod circular;
mod cosf;
mod cospif;
mod polynomial;
mod quarter;
mod sincosf_eval;
mod sinf;
mod sinpif;
mod tanf;
mod tanpif;
mod word;

// Kept by hand: f_sinf and its five like are pxfm's names of on_float at each function.
pub use circular::{Circular, on_float, on_word};
pub use cosf::{Cosf, f_cosf};
pub use cospif::{Cospif, f_cospif};
pub use sincosf_eval::{cospif_eval, sinpif_eval};
pub use sinf::{Sinf, f_sinf};
pub use sinpif::{Sinpif, f_sinpif};
pub use tanf::{Tanf, f_tanf};
pub use tanpif::{Tanpif, f_tanpif};
