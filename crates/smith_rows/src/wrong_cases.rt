//! Cases that are not ok: each is reported so, with the reason.

use smith_case_answers::judge;
use std::alloc::Global;
use std::test::Fail;

const RIGHT: &str =
    r#"{"name": "a", "call": "Module::new", "lines": ["(module", ")"], "absent": ["start"]}"#;

// A wrong case on each line, and the start of its report.
const WRONG: &str = r#" => not ok : not a JSON object of a case
[] => not ok : not a JSON object of a case
{} => not ok : no name
{"name": "", "call": "Module::new", "may": ["Ok"]} => not ok : no name
{"name": "a", "call": "Module::new"} => not ok a: nothing is wanted
{"name": "a", "call": "Module::new", "absent": ["start"]} => not ok a: nothing is wanted
{"name": "a", "call": "Module::new", "lines": []} => not ok a: nothing is wanted
{"name": "a", "call": "Module::new", "answer": ["..."]} => not ok a: nothing is wanted
{"name": "a", "call": "Module::new", "pieces": [""]} => not ok a: an empty piece is wanted
{"name": "a", "call": "Module::new", "lines": [" "]} => not ok a: an empty piece is wanted
{"name": "a", "call": "Module::new", "answer": ["(module", "...", ")"]} => not ok a: lines are wanted after `...`
{"name": "a", "call": "Module::new", "wants": ["Ok"]} => not ok a: an unknown key before byte 46
{"name": "a", "call": "Module::old", "may": ["Ok"]} => not ok a: an unknown call
{"name": "a", "may": ["Ok"]} => not ok a: an unknown call
{"name": "a", "name": "b", "may": ["Ok"]} => not ok a: the key before byte 22 occurs twice
{"name": "a", "config": {}, "config": {}} => not ok a: the key before byte 38 occurs twice
{"name": "a", "call": "Module::new", "may": ["Ok"]} {} => not ok a: not a JSON object of a case
{"name": "a", "call": "Module::new", "input": "0", "may": ["Ok"]} => not ok a: the input is not hexadecimal
{"name": "a", "call": "Module::new", "input": "00*x", "may": ["Ok"]} => not ok a: the input is not hexadecimal
{"name": "a", "call": "Module::new", "inputs": "each bit", "may": ["Ok"]} => not ok a: unknown inputs
{"name": "a", "call": "Module::new", "config": {"max-typos": 1}, "may": ["Ok"]} => not ok a: the configuration, line 1, column 49: UnknownField
{"name": "a", "call": "Module::new", "exports": "typos", "may": ["Ok"]} => not ok a: an unknown shape
{"name": "a", "call": "Module::arbitrary", "args": ["1"], "may": ["Ok"]} => not ok a: a key that the call does not read
{"name": "a", "call": "Unstructured::arbitrary_len", "args": ["1"], "may": ["Ok"]} => not ok a: more arguments than the call has
{"name": "a", "call": "limited_str", "args": ["1", "a"], "may": ["Ok"]} => not ok a: more arguments than the call has
{"name": "a", "call": "Module::new", "args": ["left", "1"], "may": ["Ok"]} => not ok a: argument 1 is missing or not valid for the call
{"name": "a", "call": "Unstructured::arbitrary", "args": ["u7"], "may": ["Ok"]} => not ok a: argument 0 is missing or not valid for the call
{"name": "a", "call": "Module::new", "may": ["EmptyChoose"]} => not ok a: the answer is Ok
{"name": "a", "call": "config", "args": ["{}", "[]"], "may": ["Ok"]} => not ok a: the answer is line 1, column 1: not a JSON object
{"name": "a", "call": "Module::new", "inputs": "each byte", "may": ["EmptyChoose"]} => not ok a: of the byte 00: the answer is Ok
{"name": "a", "call": "Module::new", "inputs": "each cut", "may": ["EmptyChoose"]} => not ok a: cut at 0: the answer is Ok
{"name": "a", "call": "Module::new", "lines": [")"], "absent": ["(module"]} => not ok a: a piece "(module"
{"name": "a", "call": "Module::new", "answer": ["(module", "(start 0)"]} => not ok a: line 2 is ")", and "(start 0)" is wanted
{"name": "a", "call": "Module::new", "lines": [")", "(module"]} => not ok a: no line "(module"
{"name": "a", "call": "Module::new", "pieces": ["(start"]} => not ok a: no piece "(start""#;

// Fails unless the case of `line` is not ok, and its report starts with `wanted`.
fn is_wrong(alloc: Global, line: &str, wanted: &str) -> Result<(), Fail> {
    let mut report = String::new(alloc);
    let is_right = judge(alloc, line, &mut report)?;
    if is_right || !report.as_str().starts_with(wanted) {
        return Err(Fail::new(format_args!("{report} of {line}")));
    }
    Ok(())
}

#[test]
fn wrong_cases_are_not_ok(rt: HostRuntime) -> Result<(), Fail> {
    for line in WRONG.lines() {
        let (case, wanted) = line.split_once(" => ").unwrap_or((line, "no report"));
        is_wrong(rt.alloc(), case, wanted)?;
    }
    Ok(())
}

#[test]
fn a_right_case_is_ok(rt: HostRuntime) -> Result<(), Fail> {
    let mut report = String::new(rt.alloc());
    let is_right = judge(rt.alloc(), RIGHT, &mut report)?;
    assert_eq!(rt; report.as_str(), "ok a\n");
    assert!(rt; is_right);
    Ok(())
}
