//! How commands are written, for lines with a word that is unknown, missing or one too many.

ghost use Rattle.std.specs.Prelude.{◌≡◌, ◌++◌, OnOk};
ghost use Rattle.show_clear.specs.Explained.{add_form, clear_form, del_form, form_of, form_text};
ghost use Rattle.show_clear.specs.Explained.{is_begun, lone_form, missing_text, no_command};
ghost use Rattle.show_clear.specs.Explained.{no_word};
ghost use Rattle.show_clear.specs.Explained.{show_form, status_form, stranger_text, unknown_text};

use crate::quoting::append_quoted;
use agg_types::NoMemory;
use answer_text::append_labelled;
use key_text::append_text;

/// Appends how the command of these two words is written, or that there is none.
pub(crate) fn append_form(first: &[u8], second: &[u8], out: &mut Vec<u8>) -> Result<(), NoMemory>
    ensures { OnOk result (out.new.items ≡ out.old.items
        ++ form_text first.now second.now (form_of first.now second.now)) }
{
    match form_of(first, second).as_bytes() {
        [] => append_no_command(first, second, out),
        form => append_labelled(b"the form is: ", form, out),
    }
}

fn append_no_command(first: &[u8], second: &[u8], out: &mut Vec<u8>) -> Result<(), NoMemory>
    ensures { OnOk result (out.new.items ≡ out.old.items ++ no_command first.now second.now) }
{
    if is_begun(first) {
        append_no_word(first, second, out)
    } else {
        append_unknown(first, out)
    }
}

fn append_unknown(first: &[u8], out: &mut Vec<u8>) -> Result<(), NoMemory>
    ensures { OnOk result (out.new.items ≡ out.old.items ++ unknown_text first.now) }
{
    append_quoted(first, out)?;
    append_text(b" is no command; see help", out)
}

fn append_no_word(first: &[u8], second: &[u8], out: &mut Vec<u8>) -> Result<(), NoMemory>
    ensures { OnOk result (out.new.items ≡ out.old.items ++ no_word first.now second.now) }
{
    match second {
        [] => append_missing(first, out),
        [_, ..] => append_stranger(first, second, out),
    }
}

fn append_missing(first: &[u8], out: &mut Vec<u8>) -> Result<(), NoMemory>
    ensures { OnOk result (out.new.items ≡ out.old.items ++ missing_text first.now) }
{
    append_text(b"a word is missing behind ", out)?;
    append_quoted(first, out)?;
    append_text(b"; see help", out)
}

fn append_stranger(first: &[u8], second: &[u8], out: &mut Vec<u8>) -> Result<(), NoMemory>
    ensures { OnOk result
        (out.new.items ≡ out.old.items ++ stranger_text first.now second.now) }
{
    append_quoted(second, out)?;
    append_text(b" is no word behind ", out)?;
    append_quoted(first, out)?;
    append_text(b"; see help", out)
}

// Whether further words tell which command it is.
fn is_begun(first: &[u8]) -> bool
    ensures { result ≡ is_begun first.now }
{
    match first {
        b"show" | b"clear" | b"add" | b"del" => true,
        _ => false,
    }
}

// How the command of these two words is written; empty where there is none.
fn form_of(first: &[u8], second: &[u8]) -> &'static str
    ensures { result.now ≡ form_of first.now second.now }
{
    if first == b"show".as_slice() {
        show_form(second)
    } else if first == b"clear".as_slice() {
        clear_form(second)
    } else if first == b"add".as_slice() {
        add_form(second)
    } else if first == b"del".as_slice() {
        del_form(second)
    } else {
        lone_form(first)
    }
}

fn show_form(second: &[u8]) -> &'static str
    ensures { result.now ≡ show_form second.now }
{
    if second == b"table".as_slice() {
        "show table [<table> [key <key> | data.<column> <operator> <value> ..]]"
    } else if second == b"filter".as_slice() {
        "show filter <filter>"
    } else if second == b"next".as_slice() {
        "show next <filter>"
    } else if second == b"rank".as_slice() {
        "show rank <rank>"
    } else if second == b"key".as_slice() {
        "show key <table> <key>"
    } else {
        status_form(second)
    }
}

fn status_form(second: &[u8]) -> &'static str
    ensures { result.now ≡ status_form second.now }
{
    if second == b"info".as_slice() {
        "show info"
    } else if second == b"peers".as_slice() {
        "show peers [<peer>]"
    } else if second == b"config".as_slice() {
        "show config"
    } else if second == b"filters".as_slice() {
        "show filters"
    } else if second == b"ranks".as_slice() {
        "show ranks"
    } else {
        ""
    }
}

fn clear_form(second: &[u8]) -> &'static str
    ensures { result.now ≡ clear_form second.now }
{
    if second == b"table".as_slice() {
        "clear table <table> [key <key> | data.<column> <operator> <value> ..]"
    } else {
        ""
    }
}

fn add_form(second: &[u8]) -> &'static str
    ensures { result.now ≡ add_form second.now }
{
    if second == b"filter".as_slice() {
        "add filter <filter> <table> data.<column> <operator> <value> .."
    } else {
        ""
    }
}

fn del_form(second: &[u8]) -> &'static str
    ensures { result.now ≡ del_form second.now }
{
    if second == b"filter".as_slice() {
        "del filter <filter>"
    } else {
        ""
    }
}

fn lone_form(first: &[u8]) -> &'static str
    ensures { result.now ≡ lone_form first.now }
{
    if first == b"help".as_slice() {
        "help"
    } else if first == b"quit".as_slice() {
        "quit"
    } else {
        ""
    }
}
