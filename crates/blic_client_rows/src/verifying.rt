// A client over a link in memory.
use blic_basic::{MemSink, SureSource};
use blic_circuit::build;
use blic_claims::Layout;
use blic_client::{Client, Verdict, verify_link};
use blic_link::MemLink;
use blic_messages::Hello;
use blic_qdimacs::{name_of, read};
use blic_verifier::Ending;
use std::test::Fail;

const FORMULA: &str = "p cnf 1 1\ne 1 0\n1 0\n";

const REPLIES: &str = "000000018101000000108300000000000000000000000000000001";

const LINES: &str = "\
> 000000260100010001000019c093b901df91f40f515cc7134e7ed67fcffecb3edd7d0c61a513ac4f5f1354
< 000000018101
> 0000000002
< 000000108300000000000000000000000000000001
> 0000000005
";

#[test]
fn honest_replies_are_certified_and_each_frame_has_its_line(rt: HostRuntime) -> Result<(), Fail> {
    let alloc = rt.alloc();
    let formula = read(alloc, &mut SureSource::new(FORMULA.as_bytes())).map_err(|_| "no formula")?;
    let hello = Hello {
        wire: 1,
        circuit: 1,
        order: 0,
        digest: name_of(alloc, &formula).map_err(|_| "memory")?,
    };
    let circuit = build(alloc, &formula, 0, 1).map_err(|_| "no circuit")?;
    let layout = Layout::new(alloc, &circuit).map_err(|_| "memory")?;
    let mut client = Client::new(alloc, &circuit, &layout, hello, true).map_err(|_| "memory")?;
    let coming = hex::decode(alloc, REPLIES.as_bytes()).map_err(|_| "no digits")?;
    let mut link = MemLink::new(alloc, coming, 7, Vec::new(alloc), 1000).map_err(|_| "memory")?;
    let mut out = MemSink::new(alloc, 4096, Vec::new(alloc), 1000).map_err(|_| "memory")?;
    let verdict = verify_link(&mut client, &mut link, ([0; 32], 0), &mut out);
    assert_eq!(rt; verdict, Verdict::Ended(Ending::Certified(true)));
    assert_eq!(rt; out.bytes(), LINES.as_bytes());
    Ok(())
}
