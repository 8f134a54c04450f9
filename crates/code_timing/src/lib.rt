// Codes read one behind the other, for a host that times their readers. A library of its own, as `count` is: the compiler joins a function into the one that
// calls it where there is one call of it.
#![tactic(auto)]

pub mod sum;
