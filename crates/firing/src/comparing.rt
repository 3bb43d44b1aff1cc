// Whether two firings decided and entered the same.
use crate::firing::Firing;
use stores::store::Store;
use values::marked::Marked;

fn tell_lists<T: PartialEq>(
    rt: &HostRuntime,
    what: &str,
    first: &[T],
    second: &[T],
) -> anyhow::Result<()> {
    let (m, n) = (first.len(), second.len());
    let same = if first == second {
        "the same"
    } else {
        "not the same"
    };
    println!(rt; "{what}: {m} in the first run, {n} in the second, {same}.")?;
    Ok(())
}

pub(crate) fn compare<S, T>(
    rt: &HostRuntime,
    first: &Firing<S>,
    second: &Firing<T>,
) -> anyhow::Result<()>
where
    S: Store<Entry = Marked> + Drop,
    T: Store<Entry = Marked> + Drop,
{
    let heap = rt.alloc();
    tell_lists(
        rt,
        "Decisions, which are branches, moved pointers and allocations",
        &first.decisions(heap)?,
        &second.decisions(heap)?,
    )?;
    tell_lists(
        rt,
        "Functions entered",
        &first.entered(heap)?,
        &second.entered(heap)?,
    )
}
