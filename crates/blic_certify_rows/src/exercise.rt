// What `exercise` prints and shows.
use crate::running::{lines_of, no_links, sink, words_of};
use blic_basic::{Bend, BendWatch, MemWatch, NoWatch, SureEntropy, SureFiles, Watch};
use blic_draw::Draws;
use blic_top::run;
use std::alloc::Global;
use std::process::Abort;
use std::test::Fail;

// Runs the words over the watch and an output of so many bytes, and asserts the status and what is printed.
fn assert_exercises<W: Watch>(
    rt: &impl Abort,
    alloc: Global,
    words: &str,
    watch: &mut W,
    room: usize,
    status: u8,
    lines: &str,
) -> Result<(), Fail> {
    let words = words_of(alloc, words)?;
    let mut out = sink(alloc, Vec::new(alloc), room)?;
    let got = run(
        alloc,
        &words,
        &mut SureFiles::new(b""),
        &mut no_links(alloc)?,
        &mut SureEntropy::new([7; 32]),
        watch,
        &mut out,
    );
    assert_eq!(rt; got, status, "{lines}");
    assert_eq!(rt; out.bytes(), lines_of(alloc, lines)?.as_slice());
    Ok(())
}

const TRUE_ONE: &str = "true vars 2 clauses 2 draws 7 bad 20/";

const BOTH: &str = "true vars 2 clauses 2 draws 7 bad 20/false vars 2 clauses 2 draws 7 bad 20/";

#[test]
fn a_true_and_a_false_formula_are_certified(rt: HostRuntime) -> Result<(), Fail> {
    let alloc = rt.alloc();
    for (words, lines) in [
        ("exercise 1", BOTH),
        (
            "exercise 0001 --seed 00112233445566778899aabbccddeeff00112233445566778899aabbccddeeff",
            BOTH,
        ),
        (
            "exercise 3",
            "true vars 6 clauses 10 draws 96 bad 234/false vars 6 clauses 10 draws 96 bad 234/",
        ),
    ] {
        let mut watch = NoWatch::new();
        assert_exercises(&rt, alloc, words, &mut watch, 1000, 0, lines)?;
    }
    Ok(())
}

#[test]
fn the_draws_go_on_from_the_first_conversation_to_the_second(rt: HostRuntime) -> Result<(), Fail> {
    let alloc = rt.alloc();
    let mut watch = MemWatch::new(alloc);
    assert_exercises(&rt, alloc, "exercise 1", &mut watch, 1000, 0, BOTH)?;
    assert!(rt; watch.whole());
    let mut draws = Draws::new([0; 32]);
    for i in 0..watch.frames() {
        // The frame of a draw: eight bytes of kind 3.
        if let [0, 0, 0, 8, 3, element @ ..] = watch.frame(i) {
            if draws.place() < 1000 {
                let draw = draws.next().value();
                assert_eq!(rt; element, draw.to_be_bytes().as_slice());
            }
        }
    }
    assert_eq!(rt; draws.place(), 14);
    Ok(())
}

#[test]
fn a_conversation_that_fails_leaves_the_lines_before_it(rt: HostRuntime) -> Result<(), Fail> {
    let alloc = rt.alloc();
    for (reply, byte, status, lines) in [
        (0, 0, 6, "c rejected node 12 combine/"),
        (0, 2, 13, "c not a frame/"),
        (
            13,
            1,
            6,
            "true vars 2 clauses 2 draws 7 bad 20/c rejected node 12 combine/",
        ),
        (13, 0, 0, BOTH),
    ] {
        let bend = Bend {
            reply,
            place: 5,
            byte,
        };
        let mut watch = BendWatch::new(alloc, vec![in alloc; bend]?);
        assert_exercises(&rt, alloc, "exercise 1", &mut watch, 1000, status, lines)?;
    }
    Ok(())
}

#[test]
fn an_output_that_fails_has_a_front_of_the_lines(rt: HostRuntime) -> Result<(), Fail> {
    let alloc = rt.alloc();
    for (room, front) in [(0, ""), (3, "tru"), (37, TRUE_ONE)] {
        let mut watch = NoWatch::new();
        assert_exercises(&rt, alloc, "exercise 1", &mut watch, room, 4, front)?;
    }
    Ok(())
}

#[test]
fn where_the_first_line_has_no_room_one_conversation_is_held(rt: HostRuntime) -> Result<(), Fail> {
    let alloc = rt.alloc();
    for (room, front) in [(0, ""), (36, "true vars 2 clauses 2 draws 7 bad 20")] {
        let mut watch = MemWatch::new(alloc);
        assert_exercises(&rt, alloc, "exercise 1", &mut watch, room, 4, front)?;
        // Thirteen asks with their replies, and Bye.
        assert_eq!(rt; watch.frames(), 27);
        if watch.frames() == 27 {
            assert_eq!(rt; watch.frame(26), [0, 0, 0, 0, 5].as_slice());
        }
    }
    Ok(())
}
