//! Tokens, and what limits bound in them. Texts that are refused are tried by `conformance/`.

use crate::comparing::{each_makes, same_number};
use crate::texts::{stores, tokens_of};
use dh_lexer::{Token, TokenKind, counts};
use std::alloc::{AllocError, Global};
use std::test::Fail;

/// Writes the place of a token, and behind it the value of a number or the text of a name, or its kind.
fn write_token(out: &mut String, token: &Token) -> Result<(), AllocError> {
    write!(out, "{}:{}", token.place.line, token.place.column)?;
    match &token.kind {
        TokenKind::Name(name) => write!(out, "({}) ", name.as_str()),
        TokenKind::Number(number) => write!(out, "({number}) "),
        kind => write!(out, "{kind:?} "),
    }
}

/// The tokens of a text, as a text.
fn shown(alloc: Global, text: &str) -> Result<String, Fail> {
    let tokens = tokens_of(alloc, text)?;
    let mut out = String::new(alloc);
    for token in tokens.as_slice() {
        write_token(&mut out, token)?;
    }
    Ok(out)
}

const TOKENS: &[(&str, &str)] = &[
    ("", "1:1End "),
    ("a /* x\n\n */ b // c", "1:1(a) 3:5(b) 3:11End "),
    ("a//b\r\nc", "1:1(a) 2:1(c) 2:2End "),
    ("/***/x/=y", "1:6(x) 1:7SlashAssign 1:9(y) 1:10End "),
    (
        "0 0xfF 0x00a 18446744073709551615",
        "1:1(0) 1:3(255) 1:8(10) 1:14(18446744073709551615) 1:34End ",
    ),
    (
        "ubit<8>=>>=",
        "1:1Ubit 1:5Less 1:6(8) 1:7GreaterEqual 1:9ShiftRight 1:11Assign 1:12End ",
    ),
    (
        "a----1..b",
        "1:1(a) 1:2Dashes 1:5Minus 1:6(1) 1:7Range 1:9(b) 1:10End ",
    ),
    (
        "_decl float\tas_",
        "1:1(_decl) 1:7Out(Float) 1:13(as_) 1:16End ",
    ),
    (
        "decl def let view shrink suffix shift split by for while if else unroll combine bank bit ubit bool true false as",
        "1:1Decl 1:6Def 1:10Let 1:14View 1:19Shrink 1:26Suffix 1:33Shift 1:39Split 1:45By 1:48For 1:52While 1:58If 1:61Else 1:66Unroll 1:73Combine 1:81Bank 1:86Bit 1:90Ubit 1:95Bool 1:100True 1:105False 1:111As 1:113End ",
    ),
    (
        "float double fix ufix record import decor return",
        "1:1Out(Float) 1:7Out(Double) 1:14Out(Fix) 1:18Out(Ufix) 1:23Out(Record) 1:30Out(Import) 1:37Out(Decor) 1:43Out(Return) 1:49End ",
    ),
    (
        "( ) [ ] { } , ; : .. --- := = == != < > <= >= << >> + - * / % & | ^ && || += -= *= /=",
        "1:1OpenParen 1:3CloseParen 1:5OpenBracket 1:7CloseBracket 1:9OpenBrace 1:11CloseBrace 1:13Comma 1:15Semicolon 1:17Colon 1:19Range 1:22Dashes 1:26Becomes 1:29Assign 1:31Equal 1:34NotEqual 1:37Less 1:39Greater 1:41LessEqual 1:44GreaterEqual 1:47ShiftLeft 1:50ShiftRight 1:53Plus 1:55Minus 1:57Star 1:59Slash 1:61Percent 1:63Ampersand 1:65Bar 1:67Caret 1:69And 1:72Or 1:75PlusAssign 1:78MinusAssign 1:81StarAssign 1:84SlashAssign 1:86End ",
    ),
];

#[test]
fn takes_the_longest_tokens(rt: HostRuntime) -> Result<(), Fail> {
    each_makes(&rt, rt.alloc(), TOKENS, shown)
}

/// What limits bound in the tokens of a text, as a text.
fn counted(alloc: Global, text: &str) -> Result<String, Fail> {
    let tokens = tokens_of(alloc, text)?;
    let found = counts(tokens.as_slice());
    Ok(format!(in alloc;
        "{} brackets, {} operators, {} else ifs",
        found.brackets, found.operators, found.else_ifs
    )?)
}

const COUNTED: &[(&str, &str)] = &[
    ("", "0 brackets, 0 operators, 0 else ifs"),
    (")))(([{}])()", "4 brackets, 0 operators, 0 else ifs"),
    (
        "a + b * c; d < e --- f - g || h && i",
        "0 brackets, 3 operators, 0 else ifs",
    ),
    (
        "if a { } else if b { } else /* */ if c { } else { if }",
        "1 brackets, 0 operators, 2 else ifs",
    ),
];

#[test]
fn counts_what_limits_bound(rt: HostRuntime) -> Result<(), Fail> {
    each_makes(&rt, rt.alloc(), COUNTED, counted)
}

/// 11 tokens before the stores, 7 of each store, and the end.
#[test]
fn lexes_a_long_text(rt: HostRuntime) -> Result<(), Fail> {
    let alloc = rt.alloc();
    let text = stores(alloc, 40_000)?;
    same_number(&rt, text.len() as u64, 920_021, "bytes");
    let tokens = tokens_of(alloc, text.as_str())?;
    same_number(&rt, tokens.len() as u64, 280_012, "tokens");
    Ok(())
}
