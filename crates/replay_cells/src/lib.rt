// The cells of a script's stores beside the calls: points kept (`k`) and merged (`j`), damage (`d`), checksums (`s`).
#![tactic(auto)]

pub mod damage;
pub mod kept;
pub mod sums;
