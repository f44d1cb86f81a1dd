// Frames of conversations about a true formula, as an independent reference made them.
use std::alloc::Global;
use std::test::Fail;

/// For each a there is a b that differs from it.
pub(crate) const FORMULA: &str = "p cnf 2 2/a 1 0/e 2 0/1 2 0/-1 -2 0/";

/// The honest conversation of this number. The draws are those of the seed of 32 zeros, seven for each conversation. A line has an ask
/// and its reply, and the last one has Bye alone.
pub(crate) fn conversation(number: u32) -> &'static str {
    match number {
        0 => first(),
        1 => second(),
        _ => third(),
    }
}

fn first() -> &'static str {
    "\
00000026010001000100007ed887f54758e37830871385fe974ba5602196aeedd06bd5fcca66805ae36020 000000018101
0000000002 000000108300000000000000010000000000000001
0000000002 000000308200000000000000011ffffffffffffffe000000000000000100000000000000011ffffffffffffffe0000000000000001
0000000803103df1a0ade0b876 0000001083103df1a0ade0b8760fc20e5f521f478a
0000000002 0000003082103df1a0ade0b8761f841cbea43e8f130000000000000000103df1a0ade0b8761f841cbea43e8f130000000000000000
000000080308bd8653e56a5d40 000000308208bd8653e56a5d401a30657f5a036e6314548dd8db27d71c08bd8653e56a5d401a30657f5a036e6314548dd8db27d71c
00000008031aed8da0b819d2bd 00000010831906d3ebdcb32fdc155bbff73f2effdf
0000000002 000000188200000000000000010512725f47e62d420000000000000000
0000000803070d778bccef36a8 0000001882000000000000000118f288743310c9570000000000000000
00000008030d4857517c5941da 000000108312b7a8ae83a6be2618f288743310c958
0000000002 00000018821aed8da0b819d2bd0512725f47e62d430000000000000000
0000000803174ad8b83fe02477 0000001882174ad8b83fe0247708b52747c01fdb890000000000000000
00000008031ca11815f4b8436a 00000010831ca11815f4b8436a174ad8b83fe02477
0000000005"
}

fn second() -> &'static str {
    "\
00000026010001000100007ed887f54758e37830871385fe974ba5602196aeedd06bd5fcca66805ae36020 000000018101
0000000002 000000108300000000000000010000000000000001
0000000002 000000308200000000000000011ffffffffffffffe000000000000000100000000000000011ffffffffffffffe0000000000000001
00000008030665eeb269b687c3 00000010830665eeb269b687c3199a114d9649783d
0000000002 00000030820665eeb269b687c31334229b2c92f07a00000000000000000665eeb269b687c31334229b2c92f07a0000000000000000
00000008031a385155bee7079f 00000030821a385155bee7079f082259fcaade526e036d0357d7539e531a385155bee7079f082259fcaade526e036d0357d7539e53
00000008030d082d737c97ba98 00000010830fe7716b8626b28a08a6f2a24aa7f053
0000000002 0000001882000000000000000112f7d28c836845670000000000000000
00000008030965e348a0290fcb 00000018820000000000000001169a1cb75fd6f0340000000000000000
00000008030d7aee323e53c612 0000001083128511cdc1ac39ee169a1cb75fd6f035
0000000002 00000018820d082d737c97ba9812f7d28c836845680000000000000000
0000000803034ee69c7621b729 0000001882034ee69c7621b7291cb1196389de48d70000000000000000
00000008031539d874b03371d5 00000010831539d874b03371d5034ee69c7621b729
0000000005"
}

fn third() -> &'static str {
    "\
00000026010001000100007ed887f54758e37830871385fe974ba5602196aeedd06bd5fcca66805ae36020 000000018101
0000000002 000000108300000000000000010000000000000001
0000000002 000000308200000000000000011ffffffffffffffe000000000000000100000000000000011ffffffffffffffe0000000000000001
000000080305fb0a51281fed31 000000108305fb0a51281fed311a04f5aed7e012cf
0000000002 000000308205fb0a51281fed311409eb5dafc0259e000000000000000005fb0a51281fed311409eb5dafc0259e0000000000000000
00000008030f4d794b1f0ae1ac 00000030820f4d794b1f0ae1ac0270b386de34efb91ef459e2e3b54cee0f4d794b1f0ae1ac0270b386de34efb91ef459e2e3b54cee
0000000803016c2663e6a0092d 00000010831a0d8ab21ecf43030953eb031924582b
0000000002 000000188200000000000000011e93d99c195ff6d20000000000000000
000000080315a0681908d17eae 000000188200000000000000010a5f97e6f72e81510000000000000000
00000008030662d37b998e718e 0000001083199d2c8466718e720a5f97e6f72e8152
0000000002 0000001882016c2663e6a0092d1e93d99c195ff6d30000000000000000
00000008031db3a0a93446c3b0 00000018821db3a0a93446c3b0024c5f56cbb93c500000000000000000
00000008030f5d7b1f68372701 00000010830f5d7b1f683727011db3a0a93446c3b0
0000000005"
}

/// The first three replies of a lie, which is accepted with the draws of conversation 0, or else 1, if honest replies follow: the answer 0,
/// the values 1 and 0, and a polynomial that agrees with the honest one at the next draw alone.
pub(crate) fn lie(number: u32) -> &'static str {
    if number == 0 {
        first_lie()
    } else {
        second_lie()
    }
}

fn first_lie() -> &'static str {
    "\
000000018100
000000108300000000000000010000000000000000
00000030820842b40908f9535f17bd4bf6f706ac9f000000000000000100000000000000011ffffffffffffffe0000000000000001"
}

fn second_lie() -> &'static str {
    "\
000000018100
000000108300000000000000010000000000000000
000000308209c6203976f3bcd31639dfc6890c432b000000000000000100000000000000011ffffffffffffffe0000000000000001"
}

pub(crate) fn push_hex(alloc: Global, bytes: &mut Vec<u8>, digits: &str) -> Result<(), Fail> {
    let mut more = hex::decode(alloc, digits.as_bytes()).map_err(|_| "no digits")?;
    bytes.append(&mut more)?;
    Ok(())
}

/// The bytes of the first `count` asks of the conversation.
pub(crate) fn asks(alloc: Global, conversation: &str, count: usize) -> Result<Vec<u8>, Fail> {
    let mut bytes = Vec::new(alloc);
    for (i, line) in conversation.lines().enumerate() {
        if i < count {
            push_hex(alloc, &mut bytes, ask_in(line))?;
        }
    }
    Ok(bytes)
}

/// The bytes of the replies of the conversation, without the first `skipped`.
pub(crate) fn replies(alloc: Global, conversation: &str, skipped: usize) -> Result<Vec<u8>, Fail> {
    let mut bytes = Vec::new(alloc);
    for (i, line) in conversation.lines().enumerate() {
        if i >= skipped {
            push_hex(alloc, &mut bytes, reply_in(line))?;
        }
    }
    Ok(bytes)
}

/// The bytes of the replies of a liar in the conversation of this number, 0 or 1.
pub(crate) fn lying_replies(alloc: Global, number: u32) -> Result<Vec<u8>, Fail> {
    let mut bytes = Vec::new(alloc);
    for digits in lie(number).lines() {
        push_hex(alloc, &mut bytes, digits)?;
    }
    bytes.append(&mut replies(alloc, conversation(number), 3)?)?;
    Ok(bytes)
}

/// The lines of the frames of the conversation.
pub(crate) fn record(alloc: Global, conversation: &str) -> Result<Vec<u8>, Fail> {
    let mut text = Vec::new(alloc);
    for line in conversation.lines() {
        push_line(&mut text, b"> ", ask_in(line))?;
        if !reply_in(line).is_empty() {
            push_line(&mut text, b"< ", reply_in(line))?;
        }
    }
    Ok(text)
}

fn push_line(text: &mut Vec<u8>, mark: &[u8], digits: &str) -> Result<(), Fail> {
    text.extend_from_slice(mark)?;
    text.extend_from_slice(digits.as_bytes())?;
    text.push(b'\n')?;
    Ok(())
}

fn ask_in(line: &str) -> &str {
    match line.split_once(' ') {
        Some((ask, _)) => ask,
        None => line,
    }
}

/// The reply of a line of a conversation, in hexadecimal.
pub(crate) fn reply_in(line: &str) -> &str {
    match line.split_once(' ') {
        Some((_, reply)) => reply,
        None => "",
    }
}
