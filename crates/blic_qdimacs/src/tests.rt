// Files that are read, and files that are refused.
ghost use Rattle.std.specs.Prelude.{◌≡◌, [], ◌∷◌, true, false, codes, Ok, Err};
ghost use Rattle.blic_model.specs.declared.prefix.Quant.TheVariants.{Exists, Forall};
ghost use Rattle.blic_qdimacs.specs.declared.error.ReadError.TheVariants as errors;
ghost use Rattle.blic_qdimacs.specs.Meaning.{meaning_within, Spells, Refuses};

use crate::{ReadError, canonical, canonical_law, canonical_text_law, judgement_law, read};
use blic_basic::{Source, Taken};
use std::test::Fail;

// What the grammar itself says of some texts.
fn worked_texts()
    ensures empty { Refuses (codes "") (errors.NoProblemLine 0) }
    ensures no_p { Refuses (codes "e 1 0\n") (errors.NoProblemLine 1) }
    ensures three_words { Refuses (codes "p cnf 1\n") (errors.BadProblemLine 1) }
    ensures minus_zero { Refuses (codes "p cnf 1 1\n1 -0\n") (errors.BadToken 2) }
    ensures number { Refuses (codes "p cnf 1 1\n2147483648 0\n") (errors.NumberTooLarge 2) }
    ensures variable { Refuses (codes "p cnf 1 1\n2 0\n") (errors.VariableTooLarge 2) }
    ensures bound_twice { Refuses (codes "p cnf 2 1\ne 1 2 0\na 1 0\n1 0\n") (errors.BoundTwice 3) }
    ensures late_set { Refuses (codes "p cnf 2 1\n1 0\ne 2 0\n") (errors.SetAfterClause 3) }
    ensures clause_before_variable { Refuses (codes "p cnf 1 1\n1 0\n2 0\n") (errors.TooManyClauses 3) }
    ensures few_clauses { Refuses (codes "p cnf 1 2\n1 0\n\nc x\n") (errors.TooFewClauses 2) }
    ensures unended { Refuses (codes "p cnf 1 1\n1\n") (errors.Unended 2) }
    ensures variables { Refuses (codes "p cnf 65536 0\n") (errors.TooManyVariables 1) }
    ensures clauses { Refuses (codes "p cnf 1 1048577\n") (errors.ClauseLimit 1) }
    ensures comment_first { Spells (codes "cnf\np cnf 0 0\n") (record { vars = 0; prefix = []; clauses = [] }) }
    ensures unbound_outermost { Spells (codes "p cnf 3 1\r\na 2 0\r\n-3 \r\nc x\r\n 1 0") (record {
      vars = 3;
      prefix = record { quant = Exists; var = 1 } ∷ record { quant = Exists; var = 3 } ∷ record { quant = Forall; var = 2 } ∷ [];
      clauses = (record { var = 3; negative = true } ∷ record { var = 1; negative = false } ∷ []) ∷ [];
    }) }

    // The byte after a bad token is the first too many, or is not.
    ensures not_judged { meaning_within 13 (codes "p cnf 1 1\n1 x 0\n") ≡ Err (errors.TooLong 2) }
    ensures just_judged { meaning_within 14 (codes "p cnf 1 1\n1 x 0\n") ≡ Err (errors.BadToken 2) }
    ensures line_not_judged { meaning_within 9 (codes "e cnf 1 1\n1 x 0\n") ≡ Err (errors.TooLong 1) }
    ensures line_just_judged { meaning_within 10 (codes "e cnf 1 1\n1 x 0\n") ≡ Err (errors.NoProblemLine 1) }
{}

/// A text that is given in pieces, and then an end or a fault.
#[derive(Drop)]
struct Pieces<'a> {
    left: &'a [u8],
    most: usize,
    fails: bool,
    faults: u64,
}

impl Source for Pieces<'_> {
    ghost use Rattle.std.specs.Prelude.{None};

    ghost left = { λ _. None };

    ghost faults = { λ s. s.faults };

    fn take(&mut self, buf: &mut [u8]) -> Taken {
        let n = self.most.min(buf.len()).min(self.left.len());
        if n > 0 {
            buf[..n].copy_from_slice(&self.left[..n]);
            self.left = &self.left[n..];
            return Taken::Got(n);
        }
        if self.fails {
            self.faults = self.faults.saturating_add(1);
            return Taken::Failed;
        }
        Taken::End
    }
}

fn in_pieces(text: &str, most: usize) -> Pieces<'_> {
    Pieces {
        left: text.as_bytes(),
        most,
        fails: false,
        faults: 0,
    }
}

#[test]
fn accepted_files_have_these_canonical_texts(rt: HostRuntime) -> Result<(), Fail> {
    worked_texts();
    judgement_law();
    canonical_law();
    canonical_text_law();
    for (text, canonical_text) in [
        (
            "p cnf 2 2\na 1 0\n1 2 0\n-1 -2 0\n",
            "p cnf 2 2\ne 2 0\na 1 0\n1 2 0\n-1 -2 0\n",
        ),
        (
            "p cnf 2 1\r\ne 1 2 0\r\n1\r\nc middle\r\n2 0\r\n",
            "p cnf 2 1\ne 1 2 0\n1 2 0\n",
        ),
        ("p cnf 65535 0\n", "p cnf 65535 0\n"),
        ("cnf\np cnf 0 0\n", "p cnf 0 0\n"),
        ("p cnf 1 1\n1 0", "p cnf 1 1\ne 1 0\n1 0\n"),
        (
            "p cnf 3 3\n0 0 -3 3 -3 0",
            "p cnf 3 3\ne 3 0\n0\n0\n-3 3 -3 0\n",
        ),
        (
            "\t \n  c x\np\tcnf 05 003\r\n\n\na 2 0 e 0 e 4\n3 0\n1 -1 5\n 1 0 0\n02 \nc end\n0",
            "p cnf 5 3\ne 1 5 0\na 2 0\ne 4 3 0\n1 -1 5 1 0\n0\n2 0\n",
        ),
    ] {
        for most in [1, 7, 4096] {
            let formula = read(rt.alloc(), &mut in_pieces(text, most))?;
            let again = canonical(rt.alloc(), &formula)?;
            assert_eq!(rt;
                again.as_slice(),
                canonical_text.as_bytes(),
                "{text} in pieces of {most}"
            );
        }
    }
    Ok(())
}

// Texts, and the first refusal of each.
const REFUSED: [(&str, ReadError); 26] = [
    ("", ReadError::NoProblemLine { line: 0 }),
    ("c only\n \n", ReadError::NoProblemLine { line: 0 }),
    ("e 1 0\n", ReadError::NoProblemLine { line: 1 }),
    ("p cnf 1\n", ReadError::BadProblemLine { line: 1 }),
    ("p cnf -1 1\n", ReadError::BadProblemLine { line: 1 }),
    ("p cnf 1 1\r1 0\n", ReadError::BadProblemLine { line: 1 }),
    ("p cnf 1 1\n1 x 0\n", ReadError::BadToken { line: 2 }),
    ("p cnf 1 1\n1 -0\n", ReadError::BadToken { line: 2 }),
    ("p cnf 1 1\n+1 0\n", ReadError::BadToken { line: 2 }),
    ("p cnf 1 1\n1 0 c x\n", ReadError::BadToken { line: 2 }),
    ("p cnf 2 0\ne -3 0\n", ReadError::BadToken { line: 2 }),
    ("p cnf 1 1\ne 1 a\n", ReadError::BadToken { line: 2 }),
    (
        "p cnf 1 1\n2147483648 0\n",
        ReadError::NumberTooLarge { line: 2 },
    ),
    (
        "p cnf 2 0\ne -2147483648 0\n",
        ReadError::NumberTooLarge { line: 2 },
    ),
    (
        "p cnf 65536 2147483648\n",
        ReadError::NumberTooLarge { line: 1 },
    ),
    ("p cnf 1 1\n2 0\n", ReadError::VariableTooLarge { line: 2 }),
    (
        "p cnf 2 1\ne 1 2 0\na 1 0\n1 0\n",
        ReadError::BoundTwice { line: 3 },
    ),
    (
        "p cnf 2 1\n1 0\ne 2 0\n",
        ReadError::SetAfterClause { line: 3 },
    ),
    (
        "p cnf 1 1\n1 0\n-1 0\n",
        ReadError::TooManyClauses { line: 3 },
    ),
    (
        "p cnf 1 1\n1 0\n2 0\n",
        ReadError::TooManyClauses { line: 3 },
    ),
    ("p cnf 1 1\n1 0\n0\n", ReadError::TooManyClauses { line: 3 }),
    (
        "p cnf 1 2\n1 0\n\nc x\n",
        ReadError::TooFewClauses { line: 2 },
    ),
    ("p cnf 1 1\n", ReadError::TooFewClauses { line: 1 }),
    ("p cnf 1 1\n1\n", ReadError::Unended { line: 2 }),
    ("p cnf 65536 0\n", ReadError::TooManyVariables { line: 1 }),
    ("p cnf 1 1048577\n", ReadError::ClauseLimit { line: 1 }),
];

#[test]
fn refused_files_name_the_first_refusal_and_its_line(rt: HostRuntime) {
    for (text, refusal) in REFUSED {
        for most in [1, 7, 4096] {
            let answer = read(rt.alloc(), &mut in_pieces(text, most)).map(|_| ());
            assert_eq!(rt; answer, Err(refusal), "{text} in pieces of {most}");
        }
    }
}

#[test]
fn a_source_that_fails_at_its_end_is_a_fault(rt: HostRuntime) {
    let mut source = Pieces {
        left: b"p cnf 0 0\n",
        most: 4,
        fails: true,
        faults: 0,
    };
    let answer = read(rt.alloc(), &mut source);
    assert!(rt; matches!(answer, Err(ReadError::Fault)));
    assert_eq!(rt; source.faults, 1);
}

/// One byte without end.
#[derive(Drop)]
struct Endless {
    byte: u8,
    given: usize,
}

impl Source for Endless {
    ghost use Rattle.std.specs.Prelude.{None};

    ghost left = { λ _. None };

    ghost faults = { λ _. 0 };

    fn take(&mut self, buf: &mut [u8]) -> Taken {
        buf.fill(self.byte);
        self.given = self.given.saturating_add(buf.len());
        Taken::Got(buf.len())
    }
}

#[test]
fn no_more_is_taken_than_a_file_and_one_byte(rt: HostRuntime) {
    for (byte, line) in [(b'0', 1), (b'\n', 67_108_865)] {
        let mut source = Endless { byte, given: 0 };
        let answer = read(rt.alloc(), &mut source).map(|_| ());
        assert_eq!(rt; answer, Err(ReadError::TooLong { line }));
        assert_eq!(rt; source.given, 67_108_865);
    }
}

// Texts whose last byte decides the refusal.
const DECIDED: [(&str, ReadError); 14] = [
    ("e 1 0\n", ReadError::NoProblemLine { line: 1 }),
    ("p cnf 1\n", ReadError::BadProblemLine { line: 1 }),
    (
        "p cnf 65536 2147483648\n",
        ReadError::NumberTooLarge { line: 1 },
    ),
    ("p cnf 65536 0\n", ReadError::TooManyVariables { line: 1 }),
    ("p cnf 1 1048577\n", ReadError::ClauseLimit { line: 1 }),
    (
        "p cnf 2 0\ne 2147483648 ",
        ReadError::NumberTooLarge { line: 2 },
    ),
    (
        "p cnf 1 1\n2147483648\n",
        ReadError::NumberTooLarge { line: 2 },
    ),
    ("p cnf 1 1\n1 x ", ReadError::BadToken { line: 2 }),
    ("p cnf 2 1\n1 0\ne ", ReadError::SetAfterClause { line: 3 }),
    ("p cnf 1 1\n2 ", ReadError::VariableTooLarge { line: 2 }),
    ("p cnf 2 1\ne 3\t", ReadError::VariableTooLarge { line: 2 }),
    (
        "p cnf 2 1\ne 1 2 0\na 1\r",
        ReadError::BoundTwice { line: 3 },
    ),
    ("p cnf 1 1\n1 0\n-1 ", ReadError::TooManyClauses { line: 3 }),
    ("p cnf 1 1\n1 0\n0\n", ReadError::TooManyClauses { line: 3 }),
];

#[test]
fn a_refusal_takes_at_most_65535_bytes_past_the_one_that_decides_it(
    rt: HostRuntime,
) -> Result<(), Fail> {
    // After the deciding byte come 200,002 bytes.
    let spaces = vec![in rt.alloc(); b' '; 200_000]?;
    for (text, refusal) in DECIDED {
        let mut bytes = Vec::from_slice(rt.alloc(), text.as_bytes())?;
        bytes.extend_from_slice(b"0\n")?;
        bytes.extend_from_slice(&spaces)?;
        for most in [1, 7, 4096, 65_536] {
            let mut source = Pieces {
                left: &bytes,
                most,
                fails: false,
                faults: 0,
            };
            let answer = read(rt.alloc(), &mut source).map(|_| ());
            assert_eq!(rt; answer, Err(refusal), "{text} in pieces of {most}");
            let left = source.left.len();
            assert!(rt; left >= 134_467, "{text} in pieces of {most}: {left} left");
        }
    }
    Ok(())
}
