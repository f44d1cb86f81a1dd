// The lines of `verify --talk` are those of `certify --talk`.
use crate::frames::push_hex;
use crate::running::{assert_ends, dialer_of, link_of, sink, status_of};
use std::test::Fail;

const UNIT: &str = "p cnf 1 1/e 1 0/1 0/";

const LINES: &str = "\
> 000000260100010001000019c093b901df91f40f515cc7134e7ed67fcffecb3edd7d0c61a513ac4f5f1354/\
< 000000018101/\
> 0000000002/\
< 000000108300000000000000000000000000000001/\
> 0000000005/\
s cnf 1 1 1/runs 1/draws 0/bad 0/";

#[test]
fn the_lines_are_those_of_a_conversation_in_one_process(rt: HostRuntime) -> Result<(), Fail> {
    let alloc = rt.alloc();
    for most in [1, 7, 100] {
        let mut coming = Vec::new(alloc);
        push_hex(alloc, &mut coming, "000000018101")?;
        push_hex(
            alloc,
            &mut coming,
            "000000108300000000000000000000000000000001",
        )?;
        let mut links = Vec::new(alloc);
        links.push(link_of(alloc, coming, most, Vec::new(alloc))?)?;
        let mut dialer = dialer_of(alloc, links, Vec::new(alloc))?;
        let mut out = sink(alloc, Vec::new(alloc))?;
        let got = status_of(alloc, "verify f a --talk", UNIT, &mut dialer, &mut out)?;
        assert_ends(&rt, alloc, (got, &out), 10, LINES)?;
    }
    Ok(())
}
