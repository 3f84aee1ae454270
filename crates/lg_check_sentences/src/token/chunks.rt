//! Chunks that are hard to cut, by hand from the rules.

use super::expect;
use std::test::Fail;

#[test]
fn every_closing_sign_is_cut_off(rt: HostRuntime) -> Result<(), Fail> {
    expect(
        &rt,
        rt.alloc(),
        "a",
        "a.,;:!?)]}\"'",
        "0-1 a a;1-2 .;2-3 ,;3-4 ;;4-5 :;5-6 !;6-7 ?;7-8 );8-9 ];9-10 };10-11 \";11-12 ';",
    )
}

#[test]
fn every_opening_sign_is_cut_off(rt: HostRuntime) -> Result<(), Fail> {
    expect(
        &rt,
        rt.alloc(),
        "a",
        "([{\"'a",
        "0-1 (;1-2 [;2-3 {;3-4 \";4-5 ';5-6 a a;",
    )
}

#[test]
fn other_signs_stay(rt: HostRuntime) -> Result<(), Fail> {
    expect(
        &rt,
        rt.alloc(),
        "a 5",
        "a) )a a( $5 5% -a-",
        "0-1 a a;1-2 );3-5 )a;6-8 a(;9-11 $5;12-14 5%;15-18 -a-;",
    )
}

#[test]
fn closing_signs_go_before_opening_ones(rt: HostRuntime) -> Result<(), Fail> {
    expect(
        &rt,
        rt.alloc(),
        "etc. etc",
        "(etc.) etc.. (etc.",
        "0-1 (;1-4 etc etc;4-5 .;5-6 );7-11 etc. etc.;11-12 .;13-14 (;14-17 etc etc;17-18 .;",
    )
}

#[test]
fn a_lone_sign_is_a_token(rt: HostRuntime) -> Result<(), Fail> {
    expect(&rt, rt.alloc(), ".", "? ( .", "0-1 ?;2-3 (;4-5 . .;")?;
    expect(
        &rt,
        rt.alloc(),
        "... ?",
        "... ...?",
        "0-3 ... ...;4-7 ... ...;7-8 ? ?;",
    )
}

#[test]
fn a_quote_before_a_capital_is_cut_off(rt: HostRuntime) -> Result<(), Fail> {
    expect(
        &rt,
        rt.alloc(),
        "the dog",
        "(\"The Dog",
        "0-1 (;1-2 \";2-5 The the;6-9 Dog;",
    )
}

#[test]
fn numbers_keep_their_signs(rt: HostRuntime) -> Result<(), Fail> {
    expect(
        &rt,
        rt.alloc(),
        "NUMBERS .",
        "1,234.5. 1,, .5 5.",
        "0-7 1,234.5 NUMBERS;7-8 . .;9-10 1 NUMBERS;10-11 ,;11-12 ,;13-15 .5;16-17 5 NUMBERS;17-18 . .;",
    )
}

#[test]
fn possessives_before_and_after_signs(rt: HostRuntime) -> Result<(), Fail> {
    expect(
        &rt,
        rt.alloc(),
        "it 's cats",
        "'s It's. it's's cats'",
        "0-2 's 's;3-5 It;5-7 's 's;7-8 .;9-11 it it;11-13 's 's;13-15 's 's;16-20 cats cats;20-21 ';",
    )
}

#[test]
fn letters_of_more_bytes_are_no_signs(rt: HostRuntime) -> Result<(), Fail> {
    expect(
        &rt,
        rt.alloc(),
        "été éa",
        "Éa \"été\", «été»",
        "0-3 Éa;4-5 \";5-10 été été;10-11 \";11-12 ,;13-22 «été»;",
    )
}
