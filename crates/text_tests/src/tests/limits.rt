//! Limits on what a network has.

use super::*;
use std::process::Abort;
use std::test::Fail;

// Appends a line.
fn push(text: &mut Vec<u8>, line: Result<String, AllocError>) -> Result<(), AllocError> {
    let line = line?;
    text.extend_from_slice(line.as_bytes())
}

// Appends a router, linked with the one before it where it is not the first.
fn push_router(alloc: Global, text: &mut Vec<u8>, before: u32) -> Result<(), AllocError> {
    let number = before.wrapping_add(1);
    push(text, format!(in alloc; "router {number} 10.0.0.{number}\n"))?;
    if before == 0 {
        return Ok(());
    }
    push(text, format!(in alloc; "link {before} {number}\n"))
}

// Appends routers 1 to so many, of which each is linked with the one before it.
fn push_routers(alloc: Global, text: &mut Vec<u8>, count: u32) -> Result<(), AllocError> {
    for before in 0..count {
        push_router(alloc, text, before)?;
    }
    Ok(())
}

fn line_of_routers(alloc: Global, count: u32) -> Result<Vec<u8>, AllocError> {
    let mut text = Vec::new(alloc);
    push_routers(alloc, &mut text, count)?;
    Ok(text)
}

// Whether this is the code that a line behind so many routers is refused for.
fn has_code_behind_routers(
    alloc: Global,
    count: u32,
    line: &[u8],
    wanted: Option<Code>,
) -> Result<bool, AllocError> {
    let text = line_of_routers(alloc, count)?;
    has_code_behind(alloc, text.as_slice(), line, wanted)
}

static COUNTS: [(u32, &[u8], Option<Code>); 5] = [
    (64, b"", None),
    (64, b"router 65 10.0.0.65", Some(Code::OutOfLimit)),
    (64, b"router 65 10.0.0.64", Some(Code::Repeated)),
    (
        20,
        b"rank 1 10.0.0.0/8 1-2-3-4-5-6-7-8-9-10-11-12-13-14-15-16",
        None,
    ),
    (
        20,
        b"rank 1 10.0.0.0/8 1-2-3-4-5-6-7-8-9-10-11-12-13-14-15-16-17",
        Some(Code::OutOfLimit),
    ),
];

#[test]
fn counts_above_a_limit_are_refused(rt: HostRuntime) -> Result<(), Fail> {
    for &(count, line, code) in &COUNTS {
        assert!(rt;
            has_code_behind_routers(rt.alloc(), count, line, code)?,
            "{line:?}"
        );
    }
    Ok(())
}

// What router 1 has only so many of.
#[derive(Clone, Copy)]
enum Thing {
    // A link, behind that with router 2.
    Link,
    Origin,
    Rule,
}

// Appends the line of a thing, another one for each place.
fn push_thing(alloc: Global, text: &mut Vec<u8>, thing: Thing, i: u32) -> Result<(), AllocError> {
    let line = match thing {
        Thing::Link => {
            let peer = i.wrapping_add(3);
            format!(in alloc; "link {peer} 1\n")
        }
        Thing::Origin => format!(in alloc; "origin 1 10.{i}.0.0/16\n"),
        Thing::Rule => format!(in alloc; "rank 1 10.{i}.0.0/16 1\n"),
    };
    push(text, line)
}

// Appends so many.
fn push_things(
    alloc: Global,
    text: &mut Vec<u8>,
    thing: Thing,
    count: u32,
) -> Result<(), AllocError> {
    for i in 0..count {
        push_thing(alloc, text, thing, i)?;
    }
    Ok(())
}

// Routers in a line, and so many things of router 1.
fn filled(alloc: Global, routers: u32, thing: Thing, count: u32) -> Result<Vec<u8>, AllocError> {
    let mut text = line_of_routers(alloc, routers)?;
    push_things(alloc, &mut text, thing, count)?;
    Ok(text)
}

// The text is read. With each of these lines behind it, it is refused in that line, for its code.
fn takes_no_more(
    rt: &impl Abort,
    alloc: Global,
    text: &[u8],
    line: usize,
    over: &[(&[u8], Code)],
) -> Result<(), Fail> {
    assert!(rt; is_refused(alloc, text, None));
    for &(last, code) in over {
        let longer = with_line(alloc, text, last)?;
        let wanted = Some(Refused { line, code });
        assert!(rt; is_refused(alloc, longer.as_slice(), wanted), "{last:?}");
    }
    Ok(())
}

#[test]
fn links_above_the_limit_are_refused(rt: HostRuntime) -> Result<(), Fail> {
    static OVER: [(&[u8], Code); 1] = [(b"link 1 18", Code::OutOfLimit)];
    let links = filled(rt.alloc(), 20, Thing::Link, 15)?;
    takes_no_more(&rt, rt.alloc(), links.as_slice(), 55, &OVER)
}

#[test]
fn origins_above_the_limit_are_refused(rt: HostRuntime) -> Result<(), Fail> {
    static OVER: [(&[u8], Code); 1] = [(b"origin 1 11.0.0.0/16\n", Code::OutOfLimit)];
    let origins = filled(rt.alloc(), 1, Thing::Origin, 256)?;
    takes_no_more(&rt, rt.alloc(), origins.as_slice(), 258, &OVER)
}

#[test]
fn rules_above_the_limit_are_refused(rt: HostRuntime) -> Result<(), Fail> {
    static OVER: [(&[u8], Code); 2] = [
        (b"rank 1 10.7.0.0/16", Code::Repeated),
        (b"rank 1 11.0.0.0/8", Code::OutOfLimit),
    ];
    let rules = filled(rt.alloc(), 1, Thing::Rule, 64)?;
    takes_no_more(&rt, rt.alloc(), rules.as_slice(), 66, &OVER)
}

// Appends the paths of a rule of router 20 of twenty: the first is its own, and each other one goes
// through one or two routers.
fn push_paths(alloc: Global, text: &mut Vec<u8>, paths: u32) -> Result<(), AllocError> {
    for i in 1..paths {
        if i < 20 {
            push(text, format!(in alloc; " 20-{i}"))?;
        } else {
            let i = i.wrapping_sub(18);
            push(text, format!(in alloc; " 20-1-{i}"))?;
        }
    }
    Ok(())
}

fn rule_of(alloc: Global, paths: u32) -> Result<Vec<u8>, AllocError> {
    let mut text = b"rank 20 10.0.0.0/8 20".to_vec(alloc)?;
    push_paths(alloc, &mut text, paths)?;
    Ok(text)
}

// Whether this is the code that a rule of so many paths is refused for, behind twenty routers.
fn has_code_of_rule(alloc: Global, paths: u32, wanted: Option<Code>) -> Result<bool, AllocError> {
    let rule = rule_of(alloc, paths)?;
    has_code_behind_routers(alloc, 20, rule.as_slice(), wanted)
}

// Whether this is the code that a rule of 33 paths is refused for that names one again.
fn has_code_of_repeat(alloc: Global, wanted: Option<Code>) -> Result<bool, AllocError> {
    let mut rule = rule_of(alloc, 33)?;
    rule.extend_from_slice(b" 020-01")?;
    has_code_behind_routers(alloc, 20, rule.as_slice(), wanted)
}

// A repeat stands before that there are too many, with zeros in front as well.
#[test]
fn paths_above_the_limit_are_refused(rt: HostRuntime) -> Result<(), Fail> {
    let alloc = rt.alloc();
    assert!(rt; has_code_of_rule(alloc, 32, None)?);
    assert!(rt; has_code_of_rule(alloc, 33, Some(Code::OutOfLimit))?);
    assert!(rt; has_code_of_repeat(alloc, Some(Code::Repeated))?);
    Ok(())
}

// A count stands before that the network is not connected.
#[test]
fn a_count_stands_before_connection(rt: HostRuntime) -> Result<(), Fail> {
    let mut routers = line_of_routers(rt.alloc(), 64)?;
    routers.extend_from_slice(b"router 65 10.0.0.65")?;
    let wanted = Refused {
        line: 128,
        code: Code::OutOfLimit,
    };
    assert!(rt; is_refused(rt.alloc(), routers.as_slice(), Some(wanted)));
    Ok(())
}
