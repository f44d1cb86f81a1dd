// Rows of arguments that fit and of arguments that don't.
use crate::{Options, Request, parse};
use std::alloc::{AllocError, Global};
use std::process::Abort;
use std::test::Fail;

fn words_of(alloc: Global, words: &str) -> Result<Vec<String>, AllocError> {
    let mut all = Vec::new(alloc);
    for word in words.split_whitespace() {
        all.push(String::from_str(alloc, word)?)?;
    }
    Ok(all)
}

// The options in a fixed order; a hyphen stands for a seed that isn't given.
fn options_text(alloc: Global, options: Options) -> Result<String, AllocError> {
    let seed = match options.seed {
        Some(seed) => hex::encode(alloc, &seed)?,
        None => String::from_str(alloc, "-")?,
    };
    let (nodes, pairs) = (options.nodes, options.pairs);
    let (repeat, talk) = (options.repeat, options.talk);
    format!(in alloc; "{nodes} {pairs} {seed} {repeat} {talk}")
}

fn request_text(alloc: Global, request: Request) -> Result<String, AllocError> {
    match request {
        Request::Solve { file, options } => {
            let options = options_text(alloc, options)?;
            format!(in alloc; "solve {file} {options}")
        }
        Request::Certify { file, options } => {
            let options = options_text(alloc, options)?;
            format!(in alloc; "certify {file} {options}")
        }
        Request::Verify {
            file,
            address,
            options,
        } => {
            let options = options_text(alloc, options)?;
            format!(in alloc; "verify {file} {address} {options}")
        }
        Request::Exercise { pairs, options } => {
            let options = options_text(alloc, options)?;
            format!(in alloc; "exercise {pairs} {options}")
        }
    }
}

fn assert_asks(rt: &impl Abort, alloc: Global, words: &str, asked: &str) -> Result<(), Fail> {
    let list = words_of(alloc, words)?;
    let got = match parse(alloc, &list).map_err(|_| "memory")? {
        Some(request) => request_text(alloc, request)?,
        None => String::from_str(alloc, "nothing")?,
    };
    assert_eq!(rt; got.as_str(), asked, "{words}");
    Ok(())
}

#[test]
fn words_that_fit_ask_for_their_request(rt: HostRuntime) -> Result<(), Fail> {
    let rows = "solve f|solve f 4194304 16777216 - 1 false
solve f --nodes 7 --pairs 4|solve f 7 4 - 1 false
solve --pairs 4 --nodes 7 f|solve f 7 4 - 1 false
solve --nodes=7 f --pairs=4|solve f 7 4 - 1 false
solve f --nodes 1 --pairs 1|solve f 1 1 - 1 false
solve f --nodes 0000000006|solve f 6 16777216 - 1 false
solve f --nodes 16777216 --pairs 33554432|solve f 16777216 33554432 - 1 false
solve -- --help|solve --help 4194304 16777216 - 1 false
certify f|certify f 4194304 16777216 - 1 false
certify f --talk|certify f 4194304 16777216 - 1 true
certify --talk f --nodes 7 --pairs 4|certify f 7 4 - 1 true
certify f --seed 00112233445566778899aabbccddeeff00112233445566778899AABBCCDDEEFF|certify f 4194304 16777216 00112233445566778899aabbccddeeff00112233445566778899aabbccddeeff 1 false
certify f --repeat 2|certify f 4194304 16777216 - 2 false
verify f a|verify f a 4194304 16777216 - 1 false
verify f a --repeat 1000 --talk|verify f a 4194304 16777216 - 1000 true
verify --seed 00112233445566778899aabbccddeeff00112233445566778899aabbccddeeff f a|verify f a 4194304 16777216 00112233445566778899aabbccddeeff00112233445566778899aabbccddeeff 1 false
exercise 1|exercise 1 4194304 16777216 - 1 false
exercise 0000000500|exercise 500 4194304 16777216 - 1 false
exercise 0001 --seed 00112233445566778899aabbccddeeff00112233445566778899aabbccddeeff|exercise 1 4194304 16777216 00112233445566778899aabbccddeeff00112233445566778899aabbccddeeff 1 false";
    for row in rows.lines() {
        let (words, asked) = row.split_once('|').ok_or("words and a request")?;
        assert_asks(&rt, rt.alloc(), words, asked)?;
    }
    Ok(())
}

// Arguments that fit no command, a line each.
const MISFITS: &str = "
verify
verify f
verify f a b
verify f a --nodes 7
verify f a --repeat 0
verify f a --repeat 1001
solve
solve a b
solve --help
solve -h
solve f -- b
solve f --node 7
solve f --nodes
solve f --nodes 0
solve f --nodes x
solve f --nodes +7
solve f --nodes=
solve f --nodes 16777217
solve f --nodes 4294967296
solve f --nodes 00000000001
solve f --nodes 1 --nodes 1
solve f --pairs 0
solve f --pairs 33554433
solve f --seed 00112233445566778899aabbccddeeff00112233445566778899aabbccddeeff
solve f --talk
solve f --repeat 2
certify
certify f b
certify f --seed 12
certify f --seed 00112233445566778899aabbccddeeff00112233445566778899aabbccddeefg
certify f --talk x
certify f --talk=true
certify f --nodes 0
certify f --repeat 0
certify f --repeat 1001
certify f --talk --talk
exercise
exercise 0
exercise 501
exercise x
exercise +1
exercise 1 2
exercise 1 --seed 12
exercise 1 --talk
exercise 1 --nodes 7
exercise 1 --repeat 2";

#[test]
fn other_words_ask_for_nothing(rt: HostRuntime) -> Result<(), Fail> {
    for row in MISFITS.lines() {
        assert_asks(&rt, rt.alloc(), row, "nothing")?;
    }
    Ok(())
}
