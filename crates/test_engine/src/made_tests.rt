// The script that is made from the seed 1 for a graph of 100 nodes.
use px_base::Limits;
use script_read::read;
use std::alloc::Global;
use std::test::Fail;
use workload::made_script;

/// Whether the line spells a command.
fn is_command(alloc: Global, line: &str) -> bool {
    match read(alloc, line.as_bytes(), &Limits::program()) {
        Ok(command) => command.is_some(),
        Err(_) => false,
    }
}

/// How many lines of the script there are.
fn count_lines(script: &str) -> usize {
    script.lines().count()
}

/// Whether each line of the script spells a command.
fn are_commands(alloc: Global, script: &str) -> bool {
    script.lines().all(|line| is_command(alloc, line))
}

#[test]
fn lines_of_a_made_script_are_commands(rt: HostRuntime) -> Result<(), Fail> {
    let script = made_script(rt.alloc(), 1, 100)?;
    assert_eq!(rt; count_lines(script.as_str()), 2013);
    assert!(rt; are_commands(rt.alloc(), script.as_str()));
    Ok(())
}
