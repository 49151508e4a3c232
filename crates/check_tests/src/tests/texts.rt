//! A text as TOML, and its parts.

use std::alloc::Global;
use toml_walk::{
    Due, Halt, NoValue, Token, What, Why, element, member, read_statement, skip_bom, stop_of,
};
use ttp_base::Memory;

// Where a text stops, if its reading stops.
fn stops_at(alloc: Global, text: &str) -> Result<Option<usize>, Memory> {
    Ok(match stop_of(alloc, text)? {
        Some(stop) => Some(stop.at),
        None => None,
    })
}

#[test]
fn a_text_is_read_to_its_end_or_stops(rt: HostRuntime) {
    let alloc = rt.alloc();
    assert!(rt;
        matches!(
            stops_at(alloc, "a = 1\r\n[b] # c\nd.e = [2, {f = 3}]\n"),
            Ok(None)
        )
    );
    assert!(rt; matches!(stops_at(alloc, "drift: 2\n"), Ok(Some(5))));
}

// Whether `window = 64us` stops at its value, for a word with a unit.
fn has_unit(alloc: Global) -> bool {
    match stop_of(alloc, "window = 64us\n") {
        Ok(Some(stop)) => matches!(
            stop.why,
            Why::NoValue {
                len: 4,
                reason: NoValue::NoDigits
            }
        ),
        _ => false,
    }
}

#[test]
fn a_unit_is_told(rt: HostRuntime) {
    assert!(rt; has_unit(rt.alloc()));
}

// Whether a statement is a header in double brackets, with a line behind it.
fn begins_slot(alloc: Global) -> bool {
    match read_statement(alloc, "[[slot]]\ndata = 4\n") {
        Ok((statement, rest)) => {
            statement.what == What::Element
                && statement.key.last.as_str() == "slot"
                && rest == "\ndata = 4\n"
        }
        Err(_) => false,
    }
}

#[test]
fn a_statement_is_read(rt: HostRuntime) {
    assert!(rt; begins_slot(rt.alloc()));
}

// Whether a member ends behind its comma, and an element behind its own.
fn is_member_read(alloc: Global) -> bool {
    match member(alloc, "data = 4, sync = true}") {
        Ok((key, rest)) => key.last.as_str() == "data" && rest == " sync = true}",
        Err(_) => false,
    }
}

fn is_element_read(alloc: Global) -> bool {
    match element(alloc, "{data = 4} , 5]") {
        Ok(rest) => rest == " 5]",
        Err(_) => false,
    }
}

// Whether an element stops where a comma is due.
fn stops_at_brace(alloc: Global) -> bool {
    match element(alloc, "{data = 4} {data = 5}]") {
        Err(Halt::Stop(stop)) => {
            stop.left == 11
                && matches!(
                    stop.why,
                    Why::Due {
                        due: Due::ElementEnd,
                        token: Token::Shown { len: 1 }
                    }
                )
        }
        _ => false,
    }
}

#[test]
fn members_and_elements_are_read(rt: HostRuntime) {
    assert!(rt;
        is_member_read(rt.alloc()) && is_element_read(rt.alloc()) && stops_at_brace(rt.alloc())
    );
    assert!(rt; skip_bom("\u{feff}a = 1") == "a = 1" && skip_bom("a = 1") == "a = 1");
}
