// Where a function that can be entered is first called, or its address first taken.
ghost use Rattle.std.specs.Prelude.{◌≡◌, ℕ, ◌<◌, Decides, MatchOption};
ghost use Rattle.module.specs.Modules.{said};
ghost use Rattle.enterable.specs.First.{Leads, NoneLeads, FirstLeads};

use crate::finding::enterable;
use crate::places::count;
use crate::way::{Site, Way};
use content::instruction::Instruction;
use module::module::Module;

fn leads(program: &Module, way: Way, f: u32, place: u32, g: u32) -> bool
    ensures { Decides result (Leads (said program.now) way f place g) }
{
    match (way, program.instruction(f, place)) {
        (Way::Call, Some(Instruction::Call { function })) => function == g,
        (Way::Address, Some(Instruction::Function { function, .. })) => function == g,
        _ => false,
    }
}

// The first place of function f that leads to g.
fn place_in(program: &Module, way: Way, f: u32, g: u32) -> Option<u32>
    ensures { MatchOption result ((i : ℕ) → Leads (said program.now) way f i g → ⊥) (λ place. Leads (said program.now) way f place g × ((i : ℕ) → i < place → Leads (said program.now) way f i g → ⊥)) }
{
    for place in 0..count(program, f) {
        if leads(program, way, f, place, g) {
            return Some(place);
        }
    }
    None
}

// Where a function that can be entered first leads to g, in the order of the functions and then of their places.
pub fn first_site(program: &Module, way: Way, g: u32) -> Option<Site>
    ensures { MatchOption result (NoneLeads (said program.now) way g) (FirstLeads (said program.now) way g) }
{
    let found = enterable(program);
    for f in 0..64 {
        if found.enters(f) {
            if let Some(place) = place_in(program, way, f, g) {
                return Some(Site { function: f, place });
            }
        }
    }
    None
}
