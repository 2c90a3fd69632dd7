//! The sources of a generated model.
ghost use Rattle.std.specs.Prelude.{◌≡◌, ◌++◌, IfOk, OnOk, string_bytes};
ghost use Rattle.std.specs.List.{flat_map};
ghost use Rattle.pst_trace_texts.specs.Lines.{line as as_line};
ghost use Rattle.pst_generated.specs.Generated as spec;

use pst_base::NoMemory;
use std::alloc::Global;

// Adds a line.
fn add_line(text: &mut String, line: &str) -> Result<(), NoMemory>
    ensures { OnOk result (string_bytes text.new ≡ string_bytes text.old ++ as_line line.now) }
{
    text.push_str(line)?;
    text.push('\n')?;
    Ok(())
}

// The types of objects, the function and the pools.
fn add_head(text: &mut String) -> Result<(), NoMemory>
    ensures { OnOk result (string_bytes text.new ≡ string_bytes text.old ++ flat_map as_line spec.head_lines) }
{
    add_line(text, "buffer blk { rand bit[8] tag; }")?;
    add_line(text, "resource chan { }")?;
    add_line(text, "import target function void put(int tag);")?;
    add_line(text, "component pss_top {")?;
    add_line(text, "  pool blk blks; bind blks *;")?;
    add_line(text, "  pool [4] chan chans; bind chans *;")
}

// The actions that make and take a block, and the pair of both.
fn add_actions(text: &mut String) -> Result<(), NoMemory>
    ensures { OnOk result (string_bytes text.new ≡ string_bytes text.old ++ flat_map as_line spec.action_lines) }
{
    add_line(
        text,
        "  action make { output blk o; lock chan c; constraint o.tag < 200;",
    )?;
    add_line(text, "                exec body { put(o.tag); } }")?;
    add_line(
        text,
        "  action take { input blk i; lock chan c; exec body { put(i.tag); } }",
    )?;
    add_line(
        text,
        "  action pair { make m; take t; activity { m; t; bind m.o t.i; } }",
    )
}

// The line on which the root action begins.
fn entry_line(alloc: Global, turns: u32) -> Result<String, NoMemory>
    ensures { IfOk result (λ text. string_bytes text ≡ spec.entry_line turns) }
{
    Ok(format!(in alloc; "  action entry {{ activity {{ repeat ({turns}) {{ schedule {{")?)
}

// The root action, which runs four pairs side by side, so many times.
fn add_entry(alloc: Global, text: &mut String, turns: u32) -> Result<(), NoMemory>
    ensures { OnOk result (string_bytes text.new ≡ string_bytes text.old ++ flat_map as_line (spec.entry_lines turns)) }
{
    let first = entry_line(alloc, turns)?;
    add_line(text, first.as_str())?;
    add_line(text, "    do pair; do pair; do pair; do pair; } } } }")?;
    add_line(text, "}")
}

/// The sources of a model whose scenarios have so many actions, which is a multiple of eight: pairs of
/// an action that makes a block and one that takes it, four pairs side by side, each action with one of
/// four channels to itself.
pub fn generated_text(alloc: Global, size: u32) -> Result<String, NoMemory>
    ensures { IfOk result (λ text. string_bytes text ≡ spec.generated_text size) }
{
    let mut text = String::new(alloc);
    add_head(&mut text)?;
    add_actions(&mut text)?;
    add_entry(alloc, &mut text, size / 8)?;
    Ok(text)
}
