//! Pieces of a program's text.
ghost use Rattle.std.specs.Prelude.{◌≡◌, ◌++◌, OnOk};
ghost use Rattle.std.specs.Fmt.{decimal};
ghost use Rattle.bg_gen.specs.Generated.{constant, bound, head, call, loop_text, part};

use itoa::Buffer;
use std::alloc::AllocError;

/// The procedure before: its number, and what it adds.
pub type Before = Option<(u32, u32)>;

/// A text, and behind it a number.
fn put(out: &mut Vec<u8>, text: &[u8], n: u32) -> Result<(), AllocError>
    ensures { OnOk result (out.new.items ≡ out.old.items ++ (text.now ++ decimal n)) }
{
    let mut buffer = Buffer::new();
    out.extend_from_slice(text)?;
    out.extend_from_slice(buffer.format(n).as_bytes())
}

/// The declaration of a candidate.
fn put_constant(out: &mut Vec<u8>, letter: &[u8], k: u32) -> Result<(), AllocError>
    ensures { OnOk result (out.new.items ≡ out.old.items ++ constant letter.now k) }
{
    out.extend_from_slice(b"const {:existential true} ")?;
    put(out, letter, k)?;
    out.extend_from_slice(b": bool;\n")?;
    Ok(())
}

/// An invariant that a candidate guards.
fn put_bound(
    out: &mut Vec<u8>,
    letter: &[u8],
    k: u32,
    relation: &[u8],
    n: u32,
) -> Result<(), AllocError>
    ensures { OnOk result (out.new.items ≡ out.old.items ++ bound letter.now k relation.now n) }
{
    out.extend_from_slice(b"    invariant ")?;
    put(out, letter, k)?;
    out.extend_from_slice(b" ==> i ")?;
    put(out, relation, n)?;
    out.extend_from_slice(b";\n")
}

/// A procedure's head, and the brace that opens its body.
fn put_head(out: &mut Vec<u8>, k: u32, a: u32) -> Result<(), AllocError>
    ensures { OnOk result (out.new.items ≡ out.old.items ++ head k a) }
{
    put(out, b"procedure G", k)?;
    put(
        out,
        b"(n: int) returns (i: int)\n  requires 0 <= n;\n  ensures i == n + ",
        a,
    )?;
    out.extend_from_slice(b";\n{\n")
}

/// The call of the procedure before, where there is one, and the check of what it gives.
fn put_call(out: &mut Vec<u8>, before: Before) -> Result<(), AllocError>
    ensures { OnOk result (out.new.items ≡ out.old.items ++ call before) }
{
    let Some((k, a)) = before else {
        return Ok(());
    };
    put(out, b"  var j: int;\n  call j := G", k)?;
    put(out, b"(n);\n  assert j == n + ", a)?;
    out.extend_from_slice(b";\n")?;
    Ok(())
}

/// The loop that counts, and the brace that closes the body.
fn put_loop(out: &mut Vec<u8>, k: u32, a: u32, b: u32) -> Result<(), AllocError>
    ensures { OnOk result (out.new.items ≡ out.old.items ++ loop_text k a b) }
{
    put(out, b"  i := ", a)?;
    put(out, b";\n  while (i < n + ", a)?;
    out.extend_from_slice(b")\n")?;
    put_bound(out, b"a", k, b">= ", a)?;
    put_bound(out, b"e", k, b"<= n + ", a)?;
    put_bound(out, b"d", k, b">= ", b)?;
    out.extend_from_slice(b"  {\n    i := i + 1;\n  }\n}\n")?;
    Ok(())
}

/// Three candidates and the procedure that uses them.
pub fn put_part(out: &mut Vec<u8>, before: Before, k: u32, a: u32, b: u32) -> Result<(), AllocError>
    ensures { OnOk result (out.new.items ≡ out.old.items ++ part before k a b) }
{
    put_constant(out, b"a", k)?;
    put_constant(out, b"d", k)?;
    put_constant(out, b"e", k)?;
    put_head(out, k, a)?;
    put_call(out, before)?;
    put_loop(out, k, a, b)?;
    Ok(())
}
