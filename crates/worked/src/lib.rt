//! The worked cases, proved from the definitions that the contracts cite.
#![tactic(auto)]

ghost use Rattle.std.specs.Prelude.{◌≡◌};
ghost use Rattle.worked.specs.Worked.{Met, Worked};

// How many worked cases there are; and that there is what their premises ask for.
#[tactic(auto, using(crate::proofs::Shown::worked, crate::proofs::Instances::met))]
pub fn cases() -> usize
    ensures count { result ≡ 10 }
    ensures worked { Worked }
    ensures met { Met }
{
    10
}
