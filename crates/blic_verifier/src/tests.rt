// Whole conversations, word by word: worked ones, each kind of fault, and those that an independent
// verifier judged.
ghost use Rattle.std.specs.Prelude.{◌≡◌, ◌<◌};

use crate::judged::JUDGED;
use crate::{Next, Verifier};
use blic_basic::Steps;
use blic_claims::Layout;
use blic_field::Fe;
use blic_messages::{Refusal, Reply};
use blic_model::{Circuit, Node};
use blic_poly2::Poly2;
use std::alloc::Global;
use std::marker::Brand;
use std::sync::ledger::{Blank, Ledger};
use std::test::Fail;

// The exclusive or of two levels, both taken away.
const EXCLUSIVE_OR: &str =
    "var 0 ; var 1 ; or 0 1 ; not 0 ; not 1 ; or 3 4 ; and 2 5 ; fix 1 0 6 ; \
    fix 1 1 6 ; or 7 8 ; fix 0 0 9 ; fix 0 1 9 ; and 10 11 ;";

fn number(words: &[&str], place: usize) -> Result<u32, Fail> {
    let word = words.get(place).ok_or("too few words")?;
    Ok(word.parse::<u32>().map_err(|_| "no number")?)
}

// -k is the negative of k.
fn element(word: &str) -> Result<Fe, Fail> {
    let (is_negative, digits) = match word.strip_prefix('-') {
        Some(rest) => (true, rest),
        None => (false, word),
    };
    let number = digits.parse::<u64>().map_err(|_| "no number")?;
    let element = Fe::from_u64(number).ok_or("no element")?;
    Ok(if is_negative { element.neg() } else { element })
}

fn node_of(words: &[&str]) -> Result<Node, Fail> {
    let kind = *words.first().ok_or("no kind")?;
    let first = number(words, 1)?;
    if kind == "const" {
        return Ok(Node::Const(first == 1));
    }
    if kind == "var" {
        return Ok(Node::Var(first));
    }
    if kind == "not" {
        return Ok(Node::Not(first));
    }
    let second = number(words, 2)?;
    if kind == "and" {
        return Ok(Node::And(first, second));
    }
    if kind == "or" {
        return Ok(Node::Or(first, second));
    }
    Ok(Node::Fix {
        level: first,
        bit: second == 1,
        child: number(words, 3)?,
    })
}

// The circuit of nodes over so many levels.
fn circuit_of(alloc: Global, levels: u32, text: &str) -> Result<Circuit, Fail> {
    let mut nodes = Vec::new(alloc);
    let mut sentence = Vec::new(alloc);
    for word in text.split_whitespace() {
        if word == ";" {
            nodes.push(node_of(&sentence)?)?;
            sentence.clear();
        } else {
            sentence.push(word)?;
        }
    }
    let mut order = Vec::new(alloc);
    for level in 0..levels {
        order.push(level)?;
    }
    if !Circuit::shaped(alloc, &nodes, &order).map_err(|_| "no memory")? {
        return Err(Fail::from("no circuit"));
    }
    Ok(Circuit::new(alloc, nodes, order, 1)?)
}

fn elements(alloc: Global, words: &[&str]) -> Result<Vec<Fe>, Fail> {
    let mut elements = Vec::new(alloc);
    for word in words {
        elements.push(element(word)?)?;
    }
    Ok(elements)
}

fn polys_of(alloc: Global, elements: &[Fe]) -> Result<Vec<Poly2>, Fail> {
    let mut polys = Vec::new(alloc);
    for part in elements.chunks_exact(3) {
        polys.push(Poly2 {
            c0: part[0],
            c1: part[1],
            c2: part[2],
        })?;
    }
    Ok(polys)
}

// What is said of a reply, in one word.
fn shown(alloc: Global, next: &Next) -> Result<String, Fail> {
    Ok(match next {
        Next::Draw => format!(in alloc; "Draw")?,
        Next::Go => format!(in alloc; "Go")?,
        Next::Done(answer) => format!(in alloc; "Done:{answer}")?,
        Next::Rejected(p) => format!(in alloc; "Rejected:{}:{:?}:{}", p.node, p.part, p.claim)?,
        Next::WrongKind { turn } => format!(in alloc; "WrongKind:{turn}")?,
        Next::WrongCount { turn, want, got } => {
            format!(in alloc; "WrongCount:{turn}:{want}:{got}")?
        }
        Next::Over => format!(in alloc; "Over")?,
    })
}

// Tells the verifier the reply, and answers what it says.
fn told<L: Ledger>(
    alloc: Global,
    verifier: &mut Verifier<'_>,
    words: &[&str],
    steps: &mut Steps<L>,
) -> Result<Next, Fail> {
    if verifier.wants_draw() {
        return Err(Fail::from("a draw stands next"));
    }
    let (kind, others) = words.split_first().ok_or("no kind")?;
    let elements = elements(alloc, others)?;
    let polys = polys_of(alloc, &elements)?;
    if *kind == "polys" {
        return Ok(verifier.take(&Reply::Polys(&polys), steps));
    }
    if *kind == "refused" {
        return Ok(verifier.take(&Reply::Refused(Refusal::NothingLeft), steps));
    }
    let first = *elements.first().ok_or("no element")?;
    if *kind == "answer" {
        return Ok(verifier.take(&Reply::Answer(first == Fe::ONE), steps));
    }
    let second = *elements.get(1).ok_or("one element")?;
    Ok(verifier.take(&Reply::Values(first, second), steps))
}

// One sentence: a draw, `reset`, or a reply and what is to be said of it.
fn perform<L: Ledger>(
    alloc: Global,
    verifier: &mut Verifier<'_>,
    words: &[&str],
    steps: &mut Steps<L>,
) -> Result<bool, Fail> {
    let (last, words) = words.split_last().ok_or("no words")?;
    if *last == "reset" {
        verifier.reset();
        return Ok(true);
    }
    if words.first() == Some(&"draw") {
        if !verifier.wants_draw() {
            return Err(Fail::from("no draw stands next"));
        }
        verifier.drawn(element(last)?, steps);
        return Ok(true);
    }
    let next = told(alloc, verifier, words, steps)?;
    Ok(shown(alloc, &next)?.as_str() == *last)
}

// A circuit, and a conversation about it.
#[derive(Clone, Copy)]
struct Case<'a> {
    levels: u32,
    nodes: &'a str,
    text: &'a str,
}

fn case_holds<L: Ledger>(alloc: Global, case: &Case<'_>, blank: Blank) -> Result<bool, Fail>
    requires name { blank.name ≡ L.name }
    requires parts { blank.parts ≡ L.parts }
    requires some { 0 < L.parts }
{
    let mut steps = Steps::<L>::new(blank);
    let circuit = circuit_of(alloc, case.levels, case.nodes)?;
    let layout = Layout::new(alloc, &circuit).map_err(|_| "no memory")?;
    let mut verifier = Verifier::new(alloc, &circuit, &layout).map_err(|_| "no memory")?;
    let mut sentence = Vec::new(alloc);
    for word in case.text.split_whitespace() {
        if word != ";" {
            sentence.push(word)?;
        } else {
            if !perform(alloc, &mut verifier, &sentence, &mut steps)? {
                return Ok(false);
            }
            sentence.clear();
        }
    }
    Ok(true)
}

// Whether the verifier says of each reply what stands behind it.
fn holds(alloc: Global, levels: u32, nodes: &str, text: &str) -> Result<bool, Fail> {
    let case = Case {
        levels,
        nodes,
        text,
    };
    case_holds::<Brand>(alloc, &case, Blank::new(1))
}

#[test]
fn xor_of_two_is_true(rt: HostRuntime) -> Result<(), Fail> {
    let text = "answer 1 Go ; values 1 1 Go ; polys 1 -1 1 1 -1 1 Draw ; draw 3 ; values 3 -2 Go ; \
        polys 3 -5 0 3 -5 0 Draw ; draw 5 ; polys 5 -29 20 5 -29 20 Draw ; draw 2 ; \
        values -3 -9 Go ; polys 1 -2 0 Draw ; draw 4 ; polys 1 -4 0 Draw ; draw 6 ; values -5 -3 Go ; \
        polys 2 -1 0 Draw ; draw 1 ; polys 1 0 0 Draw ; draw 7 ; values 7 1 Done:true ; \
        values 7 1 Over ; refused Over ;";
    assert!(rt; holds(rt.alloc(), 2, EXCLUSIVE_OR, text)?);
    Ok(())
}

#[test]
fn accepts_wrong_answer_at_bad_draw(rt: HostRuntime) -> Result<(), Fail> {
    let bad = "answer 0 Go ; values 1 0 Go ; polys -1 0 1 1 -1 1 Draw ; draw 2 ; values 2 -1 Go ; \
        polys 2 -3 0 2 -3 0 Draw ; draw 5 ; polys 5 -29 20 5 -29 20 Draw ; draw 2 ; \
        values -3 -9 Go ; polys 1 -2 0 Draw ; draw 4 ; polys 1 -4 0 Draw ; draw 6 ; values -5 -3 Go ; \
        polys 2 -1 0 Draw ; draw 1 ; polys 1 0 0 Draw ; draw 7 ; values 7 1 Done:false ;";
    let other = "answer 0 Go ; values 1 0 Go ; polys -1 0 1 1 -1 1 Draw ; draw 3 ; \
        values 3 -2 Rejected:9:Ends:1 ; values 3 -2 Over ; reset ; answer 0 Go ;";
    assert!(rt; holds(rt.alloc(), 2, EXCLUSIVE_OR, bad)?);
    assert!(rt; holds(rt.alloc(), 2, EXCLUSIVE_OR, other)?);
    Ok(())
}

#[test]
fn each_kind_of_fault(rt: HostRuntime) -> Result<(), Fail> {
    for text in [
        "answer 0 Go ; values 1 1 Rejected:12:Combine:0 ; answer 0 Over ;",
        "answer 1 Go ; values 1 1 Go ; polys 1 -1 1 WrongCount:2:2:1 ; polys 1 -1 1 1 -1 1 Over ;",
        "answer 1 Go ; values 1 1 Go ; values 1 1 WrongKind:2 ;",
        "answer 1 Go ; values 1 1 Go ; polys 1 -1 1 2 -1 1 Rejected:9:Poly(0):1 ;",
        "answer 1 Go ; values 1 1 Go ; answer 1 WrongKind:2 ;",
        "answer 1 Go ; values 1 1 Go ; refused WrongKind:2 ;",
        "refused WrongKind:0 ; answer 1 Over ; reset ; answer 1 Go ;",
        "values 1 1 WrongKind:0 ;",
        "polys 1 -1 1 WrongKind:0 ;",
        "answer 1 Go ; polys 1 -1 1 WrongKind:1 ;",
        "answer 1 Go ; values 1 1 Go ; polys 1 -1 1 1 -1 1 Draw ; draw 3 ; polys WrongKind:3 ; reset ; \
            values 3 -2 WrongKind:0 ;",
    ] {
        assert!(rt; holds(rt.alloc(), 2, EXCLUSIVE_OR, text)?, "{text}");
    }
    Ok(())
}

#[test]
fn says_what_an_independent_verifier_says(rt: HostRuntime) -> Result<(), Fail> {
    for (levels, nodes, text) in JUDGED {
        assert!(rt; holds(rt.alloc(), *levels, nodes, text)?, "{nodes} {text}");
    }
    Ok(())
}

#[test]
fn all_draws_alike(rt: HostRuntime) -> Result<(), Fail> {
    for text in [
        "answer 1 Go ; values 1 1 Go ; polys 1 -1 1 1 -1 1 Draw ; draw 0 ; values 0 1 Go ; \
            polys 0 1 0 0 1 0 Draw ; draw 0 ; polys 0 1 0 0 1 0 Draw ; draw 0 ; values 0 1 Go ; \
            polys 1 0 0 Draw ; draw 0 ; polys 1 0 0 Draw ; draw 0 ; values 1 1 Go ; \
            polys 0 1 0 Draw ; draw 0 ; polys 0 1 0 Draw ; draw 0 ; values 0 0 Done:true ;",
        "answer 1 Go ; values 1 1 Go ; polys 1 -1 1 1 -1 1 Draw ; draw 1 ; values 1 0 Go ; \
            polys 1 -1 0 1 -1 0 Draw ; draw 1 ; polys 1 -1 0 1 -1 0 Draw ; draw 1 ; values 1 0 Go ; \
            polys 1 -1 0 Draw ; draw 1 ; polys 1 -1 0 Draw ; draw 1 ; values 0 0 Go ; \
            polys 1 0 0 Draw ; draw 1 ; polys 1 0 0 Draw ; draw 1 ; values 1 1 Done:true ;",
    ] {
        assert!(rt; holds(rt.alloc(), 2, EXCLUSIVE_OR, text)?, "{text}");
    }
    Ok(())
}
