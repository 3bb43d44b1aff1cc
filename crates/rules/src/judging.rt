// The lists judged in order, for one rule after the other.
ghost use Rattle.std.specs.Prelude.{◌≡◌, MatchResult, not, position, unwrap_or};
ghost use Rattle.parts.specs.Content.{shown};
ghost use Rattle.records.specs.Rows.{words_in, readings};
ghost use Rattle.records.specs.declared.list.ListOf.TheVariants.{Code};
ghost use Rattle.rules.specs.declared.rule.Rule.TheVariants.{Names, Types};
ghost use Rattle.rules.specs.Judging.{first_in, broken_by, broken_by_any, FirstBroken, Kept, Breaks};
ghost use Rattle.rules.specs.inside.Judged.{Judged};

use crate::fault::RuleFault;
use crate::place::Scope;
use crate::rule::Rule;
use crate::ruled::{Ruled, Ruling};
use content::function::Function;
use parts::image::Image;
use parts::items::{FUNCTION, GLOBAL, KIND, TYPED};
use records::list::ListOf;
use records::record::{Record, RecordFault};
use records::rows::read_or;

impl<'a> Ruling<'a> {
    // The first record that breaks the rule. The closure has a clause, since none is found for a generic one.
    fn broken_in<R: Ruled + Record<N>, const N: usize>(
        &self,
        rows: &[[[u8; 4]; N]],
        blank: R,
    ) -> Option<usize>
        ensures { result ≡ position (λ r. not (R.keeps self.now.rule (shown self.now.image.now) (unwrap_or (R.meant (words_in r)) blank))) rows.now }
    {
        rows.iter().position(
            |row| -> bool
                ensures { result ≡ not (R.keeps self.entry.now.rule (shown self.entry.now.image.now) (unwrap_or (R.meant (words_in row.now)) blank)) }
            { !read_or(row, blank).passes(self) },
        )
    }

    fn judge_list<R: Ruled + Record<N>, const N: usize>(
        &self,
        rows: &[[[u8; 4]; N]],
        blank: R,
        list: ListOf,
    ) -> Result<(), RecordFault>
        ensures { Judged (first_in (R.keeps self.now.rule (shown self.now.image.now)) (readings R.meant blank rows.now)) list result }
    {
        match self.broken_in(rows, blank) {
            Some(record) => Err(RecordFault { list, record }),
            None => Ok(()),
        }
    }

    // The first instruction of a function that breaks the rule there, by its place in the list of code.
    fn broken_code(&self, f: &Function) -> Option<usize>
        ensures { result ≡ broken_by self.now.rule (shown self.now.image.now) f.now }
    {
        let scope = Scope::of(self.image, f);
        scope
            .broken_at(self.rule)
            .map(|i| f.first as usize + i as usize)
    }

    fn judge_functions(&self) -> Result<(), RecordFault>
        ensures { Judged (broken_by_any self.now.rule (shown self.now.image.now) (shown self.now.image.now).functions) Code result }
    {
        for row in self.image.functions {
            if let Some(record) = self.broken_code(&read_or(row, FUNCTION)) {
                return Err(RecordFault {
                    list: ListOf::Code,
                    record,
                });
            }
        }
        Ok(())
    }
}

#[tactic(auto, using(crate::proofs::Keeps::all_kept))]
fn judge(rule: Rule, image: &Image) -> Result<(), RecordFault>
    ensures { MatchResult result (λ _. Kept rule (shown image.now)) (λ f. FirstBroken rule (shown image.now) f) }
{
    let ruling = Ruling { rule, image };
    ruling.judge_list(image.types, KIND, ListOf::Types)?;
    ruling.judge_list(image.fields, TYPED, ListOf::Fields)?;
    ruling.judge_list(image.globals, GLOBAL, ListOf::Globals)?;
    ruling.judge_list(image.locals, TYPED, ListOf::Locals)?;
    ruling.judge_list(image.functions, FUNCTION, ListOf::Functions)?;
    ruling.judge_functions()
}

// The first rule that the lists break, if they break one.
pub fn check(image: &Image) -> Result<(), RuleFault>
    ensures { MatchResult result (λ _. Kept Names (shown image.now) × Kept Types (shown image.now)) (λ e. Breaks (shown image.now) e) }
{
    judge(Rule::Names, image).map_err(RuleFault::Unnamed)?;
    judge(Rule::Types, image).map_err(RuleFault::Mistyped)
}
