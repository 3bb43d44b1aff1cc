// Which functions a run of the module can enter: told before it fires, and compared with what it entered.
use crate::entered::Entered;
use crate::firing::Firing;
use crate::segment::Function;
use enterable::finding::enterable;
use enterable::functions::EnterableFunctions;
use enterable::leading::first_site;
use enterable::way::Way;
use module::module::Module;
use stores::store::Store;
use values::marked::Marked;

// How a function other than function 0 can be entered.
fn manner(called: bool, through: bool) -> &'static str {
    match (called, through) {
        (true, true) => "by a call and through a pointer",
        (true, false) => "by a call alone",
        (false, _) => "through a pointer alone",
    }
}

pub(crate) fn tell_statement(
    rt: &HostRuntime,
    module: &Module,
) -> anyhow::Result<EnterableFunctions> {
    let found = enterable(module);
    rt.print(
        "The module's runs can enter these functions and no others, whatever a panel writes:\n  0, in which each begins\n",
    )?;
    // Over the numbers of the other functions, since these are what is asked and told.
    for number in 1..module.lists().functions.len() as u32 {
        if found.enters(number) {
            let function = Function(number);
            let called = first_site(module, Way::Call, number).is_some();
            let how = manner(called, found.enters_through(number));
            println!(rt; "  {function} {how}")?;
        }
    }
    Ok(found)
}

impl<S: Store<Entry = Marked> + Drop> Firing<S> {
    // Whether all that was entered was stated before.
    pub(crate) fn tell_within(
        &self,
        rt: &HostRuntime,
        stated: &EnterableFunctions,
    ) -> anyhow::Result<()> {
        let entered = self.entered(rt.alloc())?;
        let within = entered.iter().all(|entry| match *entry {
            Entered::ByCall(Function(number)) => stated.enters(number),
            Entered::ThroughPointer(Function(number)) => stated.enters_through(number),
        });
        let lie = if within { "lie" } else { "don't all lie" };
        println!(rt; "The functions that it entered {lie} within what was stated before.")?;
        Ok(())
    }
}
