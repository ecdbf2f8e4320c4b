//! Texts in the printed layout.
use bg_lex::lex;
use bg_parse::parse;
use bg_print::print;
use std::alloc::Global;

/// Texts, and how they are printed.
const TEXTS: [(&[u8], &str); 3] = [
    (b" // nothing", ""),
    (
        b"procedure P(a:bool) { var b: bool; b:=a; assert (b)==a; }",
        "procedure P(a: bool)\n{\n  var b: bool;\n  b := a;\n  assert (b) == a;\n}\n",
    ),
    (
        b"const{:existential true}unique c:bool; procedure P(a:bool)requires a;{ var b:bool;
        while(*)free invariant a;{if(a){L:return;}else if(b){}else{a:=b;}} }",
        "const {:existential true} unique c: bool;\n\
         procedure P(a: bool)\n\
         \x20 requires a;\n\
         {\n\
         \x20 var b: bool;\n\
         \x20 while (*)\n\
         \x20   free invariant a;\n\
         \x20 {\n\
         \x20   if (a) {\n\
         \x20     L:\n\
         \x20     return;\n\
         \x20   } else if (b) {\n\
         \x20   } else {\n\
         \x20     a := b;\n\
         \x20   }\n\
         \x20 }\n\
         }\n",
    ),
];

/// The printed text of a text; none where it holds no program, or memory ran out.
fn printed(alloc: Global, text: &[u8]) -> Option<Vec<u8>> {
    if text.len() >= 1000 {
        return None;
    }
    let tokens = lex(alloc, text).ok()?;
    if tokens.list.len() >= 1000 {
        return None;
    }
    let tree = parse(alloc, &tokens.list).ok()?;
    print(alloc, &tree.decls).ok()
}

#[test]
fn declarations_are_printed_on_lines_of_their_own(rt: HostRuntime) {
    for (text, wanted) in &TEXTS {
        let found = printed(rt.alloc(), text);
        assert!(rt; found.is_some_and(|t| t.as_slice() == wanted.as_bytes()));
    }
}
