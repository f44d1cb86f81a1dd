// Conversations on small circuits that an independent verifier judged: the levels, the nodes, and
// each reply with what is said of it.

pub(crate) const JUDGED: &[(u32, &str, &str)] = &[
    (
        1,
        "var 0 ; not 0 ; or 0 1 ; fix 0 0 2 ; fix 0 1 2 ; or 3 4 ;",
        "answer 1 Go ; values 1 1 Go ; polys 1 -1 1 1 -1 1 Draw ; draw 1 ; values 1 0 \
        Done:true ;",
    ),
    (
        1,
        "var 0 ; or 0 0 ; fix 0 0 1 ; fix 0 1 1 ; and 2 3 ;",
        "answer 1 Go ; values 0 1 Rejected:4:Combine:0 ;",
    ),
    (
        2,
        "var 0 ; var 1 ; not 0 ; or 2 1 ; fix 0 0 3 ; fix 0 1 3 ; and 4 5 ; fix 1 0 6 ; fix 1 \
        1 6 ; or 7 8 ;",
        "answer 1 Go ; values 0 1 Go ; polys 0 1 0 0 1 0 Draw ; draw -1 ; values 1 -1 Go ; \
        polys 0 1 0 1 0 0 Draw ; draw -1 ; polys 1 -2 0 1 -2 0 Draw ; draw 989770899615438481 \
        ; values -989770899615438479 -1 Rejected:3:Combine:0 ;",
    ),
    (
        1,
        "var 0 ; and 0 0 ; fix 0 0 1 ; fix 0 1 1 ; and 2 3 ;",
        "answer 0 Go ; values 0 1 Go ; polys 0 0 1 0 0 1 Draw ; draw -1 ; values -1 -1 \
        Done:false ;",
    ),
    (
        1,
        "var 0 ; and 0 0 ; and 0 1 ; fix 0 0 2 ; fix 0 1 2 ; or 3 4 ;",
        "answer 1 Go ; values 0 1 Go ; polys 0 0 1 0 0 1 Draw ; draw 5 ; values 5 5 Go ; polys \
        0 0 1 Draw ; draw 1 ; values 1 1 Done:true ;",
    ),
    (
        1,
        "var 0 ; or 0 0 ; and 0 1 ; or 2 0 ; fix 0 0 3 ; fix 0 1 3 ; and 4 5 ;",
        "answer 0 Go ; values 0 1 Go ; polys 0 2 -1 0 2 -1 Draw ; draw 2 ; values 3 2 \
        Rejected:3:Combine:0 ;",
    ),
    (
        1,
        "var 0 ; or 0 0 ; fix 0 0 1 ; fix 0 1 1 ; or 2 3 ;",
        "answer 1 Go ; polys 1 0 0 WrongKind:1 ;",
    ),
    (
        2,
        "var 0 ; var 1 ; and 1 0 ; fix 0 0 2 ; fix 0 1 2 ; or 3 4 ; fix 1 0 5 ; fix 1 1 5 ; \
        and 6 7 ;",
        "answer 1 Go ; values 1 1 Go ; polys 0 1 0 1 1 0 Draw ; draw 1 ; values 0 1 \
        Rejected:5:Ends:1 ;",
    ),
    (
        2,
        "var 0 ; var 1 ; or 0 1 ; fix 0 0 2 ; fix 0 1 2 ; and 3 4 ; fix 1 0 5 ; fix 1 1 5 ; \
        and 6 7 ;",
        "answer 1 Go ; values 1 1 Go ; polys 0 1 0 1 461168601842738791 0 Draw ; draw 5 ; \
        values 5 1 Go ; polys 1 0 0 0 1 0 Draw ; draw 0 ; polys 0 1 0 0 1 0 Draw ; draw 1 ; \
        values 1 0 Done:true ;",
    ),
    (
        1,
        "var 0 ; not 0 ; and 1 0 ; fix 0 0 2 ; fix 0 1 2 ; and 3 4 ;",
        "answer 0 Go ; polys 1 0 0 WrongKind:1 ;",
    ),
    (
        2,
        "var 0 ; var 1 ; and 0 1 ; fix 0 0 2 ; fix 0 1 2 ; and 3 4 ; fix 1 0 5 ; fix 1 1 5 ; \
        and 6 7 ;",
        "answer 1 Go ; values 1 1 Go ; polys -1152921504606846974 1152921504606846975 0 1 0 0 \
        Draw ; draw 3 ; values 0 3 Rejected:5:Ends:1 ;",
    ),
    (
        2,
        "var 0 ; var 1 ; and 1 0 ; and 0 2 ; fix 0 0 3 ; fix 0 1 3 ; and 4 5 ; fix 1 0 6 ; fix \
        1 1 6 ; and 7 8 ;",
        "answer 0 Go ; values 0 0 Go ; polys 0 0 0 0 0 0 Draw ; draw -559256269338371928 ; \
        values 0 -559256269338371928 Go ; polys 0 1 0 0 -1 0 Rejected:3:Poly(1):1 ;",
    ),
    (
        1,
        "var 0 ; const 1 ; fix 0 0 1 ; or 0 2 ; fix 0 0 3 ; fix 0 1 3 ; and 4 5 ;",
        "answer 1 Go ; values 1 1 Go ; polys 1 0 0 1 0 0 Draw ; draw 2 ; values 3 1 \
        Rejected:0:Leaf:0 ;",
    ),
    (
        1,
        "var 0 ; const 0 ; and 0 1 ; or 0 2 ; fix 0 0 3 ; fix 0 1 3 ; or 4 5 ;",
        "answer 1 Go ; values 0 1 Go ; polys 0 1 0 0 1 0 Draw ; draw -1 ; values -1 0 Go ; \
        polys 0 0 0 Draw ; draw -1 ; values 0 0 Rejected:0:Leaf:1 ;",
    ),
    (
        2,
        "var 0 ; var 1 ; and 1 1 ; or 2 0 ; fix 0 0 3 ; fix 0 1 3 ; and 4 5 ; fix 1 0 6 ; fix \
        1 1 6 ; or 7 8 ;",
        "answer 1 Go ; values 0 1 Go ; polys 0 1 0 0 1 0 Draw ; draw -990727410903404802 ; \
        values -990727410903404802 1 Go ; polys 1 0 0 0 1 0 Draw ; draw 488760564345547544 ; \
        polys 488760564345547544 -488760564345547543 0 488760564345547544 -488760564345547543 \
        0 Draw ; draw 5 ; values 488760564345547544 5 Go ; polys 0 0 1 Draw ; draw 1 ; values \
        1 1 Done:true ;",
    ),
    (
        2,
        "var 0 ; var 1 ; and 0 0 ; or 2 1 ; fix 0 0 3 ; fix 0 1 3 ; and 4 5 ; fix 1 0 6 ; fix \
        1 1 6 ; or 7 8 ;",
        "answer 0 Go ; values 0 0 Go ; polys 1152921504606846975 -1152921504606846975 0 0 1 0 \
        Draw ; draw -1 ; values -1 1 Go ; polys 1 0 0 0 1 0 Draw ; draw 3 ; polys 3 -2 0 3 -2 \
        0 Draw ; draw 2 ; values 2 3 Go ; polys 0 0 1 Draw ; draw 1 ; values 1 1 Done:false ;",
    ),
    (
        1,
        "var 0 ; const 0 ; fix 0 0 0 ; and 1 2 ; fix 0 0 3 ; fix 0 1 3 ; or 4 5 ;",
        "answer 1 Go ; values 1 0 Go ; values 0 0 Rejected:3:Ends:1 ;",
    ),
    (
        2,
        "var 0 ; var 1 ; and 1 0 ; or 2 1 ; fix 0 0 3 ; fix 0 1 3 ; or 4 5 ; fix 1 0 6 ; fix 1 \
        1 6 ; or 7 8 ;",
        "answer 0 Go ; values 0 0 Go ; polys 1152921504606846974 -1152921504606846973 -1 0 2 \
        -1 Draw ; draw 3 ; values 3 3 Go ; polys 0 2 -1 0 1 0 Draw ; draw -1 ; polys -1 -2 0 \
        -1 -2 0 Draw ; draw 2 ; values -2 -1 Go ; polys 0 2 0 Draw ; draw 2 ; polys 0 2 0 \
        Draw ; draw 3 ; values 2 3 Done:false ;",
    ),
    (
        1,
        "var 0 ; and 0 0 ; fix 0 0 1 ; fix 0 1 1 ; or 2 3 ;",
        "answer 0 Go ; values 0 0 Go ; polys 0 0 1 0 0 1 Rejected:1:Poly(0):0 ;",
    ),
    (
        1,
        "var 0 ; and 0 0 ; not 1 ; fix 0 0 2 ; fix 0 1 2 ; and 3 4 ;",
        "answer 0 Go ; values 1 0 Go ; polys 0 0 1 0 0 1 Draw ; draw 3 ; values 3 3 Done:false \
        ;",
    ),
    (
        1,
        "var 0 ; and 0 0 ; fix 0 0 1 ; fix 0 1 1 ; or 2 3 ;",
        "answer 0 Go ; values 0 0 Go ; polys -576460752303423489 576460752303423488 1 0 0 1 \
        Draw ; draw 5 ; values 5 5 Done:false ;",
    ),
    (
        1,
        "var 0 ; and 0 0 ; and 0 1 ; and 2 2 ; fix 0 0 3 ; fix 0 1 3 ; and 4 5 ;",
        "answer 1 Go ; values 1 1 Go ; polys 0 0 1 1 0 1 Draw ; draw 1 ; values 1 1 \
        Rejected:3:Ends:1 ;",
    ),
    (
        2,
        "var 0 ; var 1 ; fix 1 1 1 ; and 1 0 ; or 2 1 ; and 4 3 ; fix 0 0 5 ; fix 0 1 5 ; and \
        6 7 ; fix 1 0 8 ; fix 1 1 8 ; and 9 10 ;",
        "answer 0 Go ; values 0 0 Go ; polys 0 0 0 0 0 0 Draw ; draw 746786254598713350 ; \
        values 0 746786254598713350 Go ; polys 0 1 0 0 0 0 Draw ; draw -373193987820127681 ; \
        polys 0 -373193987820127681 0 0 -373193987820127681 0 Draw ; draw 2 ; values 1 \
        -746387975640255362 Go ; polys 1 0 -2 Rejected:4:Poly(0):0 ;",
    ),
    (
        2,
        "var 0 ; var 1 ; and 0 1 ; and 0 2 ; fix 0 0 3 ; fix 0 1 3 ; or 4 5 ; fix 1 0 6 ; fix \
        1 1 6 ; and 7 8 ;",
        "answer 0 Go ; values 0 1 Go ; polys 0 1 0 0 1 0 0 1 0 WrongCount:2:2:3 ;",
    ),
    (
        1,
        "var 0 ; const 1 ; or 0 0 ; or 2 1 ; fix 0 0 3 ; fix 0 1 3 ; or 4 5 ;",
        "answer 1 Go ; values 2 1 Go ; polys 1 0 0 1 0 0 Rejected:3:Poly(0):1 ;",
    ),
    (
        1,
        "var 0 ; const 0 ; and 0 1 ; fix 0 0 2 ; fix 0 0 3 ; fix 0 1 3 ; and 4 5 ;",
        "answer 0 Go ; values 0 0 Go ; polys 0 0 0 0 0 0 Draw ; draw -1 ; values 0 0 \
        Rejected:0:Leaf:0 ;",
    ),
    (
        1,
        "var 0 ; or 0 0 ; fix 0 0 1 ; fix 0 1 1 ; or 2 3 ;",
        "answer 1 Go ; values 1 1 Go ; polys 0 2 -1 0 2 -1 Rejected:1:Poly(0):1 ;",
    ),
    (
        1,
        "var 0 ; and 0 0 ; fix 0 0 1 ; fix 0 1 1 ; and 2 3 ;",
        "answer 0 Go ; values 0 1 Go ; polys 0 0 1 0 0 1 0 0 1 WrongCount:2:2:3 ;",
    ),
];
