//! The page in one piece.

use crate::asking::asking;
use crate::basics::basics;
use crate::chart::chart;
use crate::keys::keys;
use crate::markup::markup;
use crate::panels::panels;
use crate::running::running;
use crate::sections::sections;
use crate::style::style;
use crate::verdict::verdict;

// The texts of all parts, one behind the other.
macro_rules! whole {
    (; $($text:literal)*) => {
        concat!($($text),*)
    };
}

/// The page, as HTML. It asks for `/api/v1/overview` and `/metrics` and shows what it is told, all
/// of it as text; it loads nothing else. What is open is asked for too: a list or a key's row.
pub const PAGE: &str = style!(markup, basics, asking, verdict, chart, sections, panels, keys,
    running, whole; r##"<!doctype html>
<html lang="en">
<head>
<meta charset="utf-8">
<meta name="viewport" content="width=device-width, initial-scale=1">
<meta name="color-scheme" content="light dark">
<title>Sesamejoist</title>
<link rel="icon" id="icon" href="data:,">
"##);
