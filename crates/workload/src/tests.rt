// Lengths, checksums and first lines, as tools/workload.py gives them.
use super::*;
use px_base::Text;
use std::process::Abort;
use std::test::Fail;

// A checksum of the bytes in their order.
fn checksum(bytes: &[u8]) -> u32 {
    let mut sum: u32 = 0;
    for byte in bytes {
        sum = sum.wrapping_mul(31).wrapping_add(u32::from(*byte));
    }
    sum
}

fn has(text: &Text, len: usize, sum: u32, head: &str) -> bool {
    let bytes = text.as_bytes();
    bytes.len() == len && checksum(bytes) == sum && bytes.starts_with(head.as_bytes())
}

#[test]
fn graph_files_of_the_least_and_the_greatest_seed(rt: HostRuntime) -> Result<(), Fail> {
    let one = made_graph(rt.alloc(), 1)?;
    let head =
        "<http://e/s2774> <http://e/p1> \"v370\" .\n<http://e/s3034> <http://e/p3> \"v402\" .\n";
    assert!(rt; has(&one, 814_241, 829_726_868, head));
    let greatest = made_graph(rt.alloc(), u64::MAX)?;
    let head =
        "<http://e/s488> <http://e/p7> <http://e/s3910> .\n<http://e/s1602> <http://e/p0> \"v385\" .\n";
    assert!(rt; has(&greatest, 815_363, 258_556_267, head));
    Ok(())
}

#[test]
fn scripts_of_the_least_and_the_greatest_seed(rt: HostRuntime) -> Result<(), Fail> {
    let one = made_script(rt.alloc(), 1, 22_000)?;
    let head = "node g0\nlink n22000 n21933\nlink n22000 n17773\nunlink n22000 n21933\n";
    assert!(rt; has(&one, 33_270, 487_478_846, head));
    let greatest = made_script(rt.alloc(), u64::MAX, 22_000)?;
    let head = "node g2\nlink n22000 n20425\nlink n22000 n3777\nunlink n22000 n20425\n";
    assert!(rt; has(&greatest, 33_227, 589_929_727, head));
    Ok(())
}
