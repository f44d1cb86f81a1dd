// Arguments that don't fit, and faults of the files and of the output.
use crate::running::{no_links, sink, words_of};
use blic_basic::{Files, MemFile, MemFiles, NoWatch, SureEntropy, SureFiles};
use blic_top::run;
use std::alloc::Global;
use std::test::Fail;

fn files(
    alloc: Global,
    text: &[u8],
    failing: Vec<u64>,
    takes_failing: Vec<u64>,
) -> Result<MemFiles, Fail> {
    let mut files = Vec::new(alloc);
    files.push(MemFile {
        name: String::from_str(alloc, "f")?,
        bytes: text.to_vec(alloc)?,
    })?;
    Ok(MemFiles::new(alloc, files, 5, failing, takes_failing, 1).map_err(|_| "memory")?)
}

// Arguments that fit no command, a line each.
const MISFITS: &str = "
solve
solve a b
verify
verify f
verify f a b
verify f a --repeat 0
verify f a --repeat 1001
verify f a --nodes 7
certify
certify f b
certify f --seed 12
certify f --seed 00112233445566778899aabbccddeeff00112233445566778899aabbccddeefg
certify f --talk x
certify f --nodes 0
certify f --repeat 0
certify f --repeat 1001
certify f --talk --talk
exercise
exercise 0
exercise 501
exercise x
exercise 1 2
exercise 1 --seed 12
exercise 1 --talk
exercise 1 --nodes 7
exercise 1 --repeat 2
solve --help
solve f -- b
solve f --node 7
solve f --nodes
solve f --nodes 0
solve f --nodes x
solve f --nodes +7
solve f --nodes=
solve f --nodes 16777217
solve f --nodes 4294967296
solve f --nodes 00000000001
solve f --nodes 1 --nodes 1
solve f --pairs 0
solve f --pairs 33554433";

#[test]
fn words_that_do_not_fit_get_the_usage_line(rt: HostRuntime) -> Result<(), Fail> {
    let alloc = rt.alloc();
    for row in MISFITS.lines() {
        let words = words_of(alloc, row)?;
        let mut out = sink(alloc, Vec::new(alloc), 100)?;
        assert_eq!(rt;
            run(
                alloc,
                &words,
                &mut SureFiles::new(b"p cnf 0 0\n"),
                &mut no_links(alloc)?,
                &mut SureEntropy::new([0; 32]),
                &mut NoWatch::new(),
                &mut out
            ),
            1,
            "{row}"
        );
        let usage = b"usage: blic solve FILE, certify FILE, verify FILE ADDR or exercise N\n";
        assert_eq!(rt; out.bytes(), usage.as_slice());
    }
    Ok(())
}

#[test]
fn a_fault_of_the_files_is_a_read_fault(rt: HostRuntime) -> Result<(), Fail> {
    let alloc = rt.alloc();
    let text = b"p cnf 1 1\ne 1 0\n1 0\n";
    let none = || Vec::new(alloc);
    let rows = [
        ("solve g", none(), none()),
        ("solve f", vec![in alloc; 0u64]?, none()),
        ("solve f", none(), vec![in alloc; 0u64]?),
        ("solve f", none(), vec![in alloc; 2u64]?),
        ("solve f", none(), vec![in alloc; 4u64]?),
        ("certify f", none(), vec![in alloc; 2u64]?),
    ];
    for (words, failing, takes_failing) in rows {
        let words = words_of(alloc, words)?;
        let mut files = files(alloc, text, failing, takes_failing)?;
        let mut out = sink(alloc, Vec::new(alloc), 100)?;
        assert_eq!(rt;
            run(
                alloc,
                &words,
                &mut files,
                &mut no_links(alloc)?,
                &mut SureEntropy::new([0; 32]),
                &mut NoWatch::new(),
                &mut out
            ),
            3
        );
        assert_eq!(rt; out.bytes(), b"c read fault\n".as_slice());
        assert_eq!(rt; files.faults(), 1);
    }
    Ok(())
}

#[test]
fn a_fault_of_the_output_leaves_a_front_of_the_line(rt: HostRuntime) -> Result<(), Fail> {
    let alloc = rt.alloc();
    let text = b"p cnf 1 1\ne 1 0\n1 0\n";
    let words = words_of(alloc, "solve f")?;
    let rows: [(u64, usize, &[u8]); 3] = [(0, 100, b""), (1, 100, b"s cnf 1"), (9, 4, b"s cn")];
    for (failing, room, front) in rows {
        let mut files = files(alloc, text, Vec::new(alloc), Vec::new(alloc))?;
        let mut out = sink(alloc, vec![in alloc; failing]?, room)?;
        let mut entropy = SureEntropy::new([0; 32]);
        let mut watch = NoWatch::new();
        let got = run(
            alloc,
            &words,
            &mut files,
            &mut no_links(alloc)?,
            &mut entropy,
            &mut watch,
            &mut out,
        );
        assert_eq!(rt; got, 4);
        assert_eq!(rt; out.bytes(), front);
    }
    Ok(())
}
