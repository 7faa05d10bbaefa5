//! How a picture looks: the rules of its shapes and texts, in the colours of a light and of a dark page.
//!
//! Each rule has its colours written out, since few readers of SVG know variables, and the class of the picture before it, since a
//! notebook may put a picture into its own page.

use Ink::{Alert, Bare, Faint, Fill, Keep, Line, Paper, Text};
use Piece::{Mark, Num};
use figure_words::{Page, Piece};
use std::alloc::Allocator;

// What a stroke or an area is drawn with: as without the rule, with nothing, or with a colour of the palette.
#[derive(Clone, Copy)]
enum Ink {
    Keep,
    Bare,
    Paper,
    Text,
    Faint,
    Line,
    Alert,
    Fill,
}

// A rule: for which elements, what their strokes and their areas are drawn with, and what else there is.
#[derive(Clone, Copy)]
struct Rule(&'static str, Ink, Ink, &'static str);

// The rules, but for those of harts; of two for one element the later one holds.
const RULES: [Rule; 37] = [
    Rule(
        "text",
        Keep,
        Text,
        "font-size:10px;white-space:pre;unicode-bidi:bidi-override",
    ),
    Rule("tspan", Keep, Keep, "unicode-bidi:bidi-override"),
    Rule(".head", Keep, Keep, "font-size:14px;font-weight:700"),
    Rule(".fact", Keep, Faint, "font-size:11px"),
    Rule(".name", Keep, Keep, "font-size:11px"),
    Rule(".pid", Keep, Keep, "font-weight:700"),
    Rule(".out", Keep, Keep, "font-size:11px;font-weight:700"),
    Rule(".call", Keep, Keep, "font-weight:700;text-anchor:middle"),
    Rule(".small", Keep, Keep, "text-anchor:middle"),
    Rule(".left", Keep, Keep, "text-anchor:start"),
    Rule(".faint", Keep, Faint, ""),
    Rule(".alert", Keep, Alert, "font-weight:700"),
    Rule(".grid", Line, Keep, "stroke-dasharray:1 3"),
    Rule(".alive", Faint, Bare, ""),
    Rule(
        ".zombie",
        Faint,
        Bare,
        "stroke-width:2;stroke-dasharray:1 4",
    ),
    Rule(".fork", Text, Paper, ""),
    Rule(".reap", Faint, Bare, "stroke-dasharray:1 3"),
    Rule("rect.reap", Keep, Paper, "stroke-dasharray:none"),
    Rule(".wake", Alert, Bare, "stroke-dasharray:4 2;stroke-width:2"),
    Rule(".tip", Keep, Alert, ""),
    Rule(".sleep", Faint, Keep, ""),
    Rule(".children", Keep, Keep, "fill:url(#children)"),
    Rule(".bytes", Keep, Keep, "fill:url(#bytes)"),
    Rule(".room", Keep, Keep, "fill:url(#room)"),
    Rule(".hatch", Faint, Bare, ""),
    Rule(".under", Keep, Paper, ""),
    Rule(".base", Line, Keep, ""),
    Rule(".fill", Keep, Fill, ""),
    Rule(".rail", Text, Keep, "stroke-width:2"),
    Rule(".open .body", Keep, Keep, "stroke-dasharray:3 2"),
    Rule(".tick", Text, Keep, ""),
    Rule(".file", Faint, Paper, ""),
    Rule(".file.empty", Keep, Keep, "stroke-dasharray:3 2"),
    Rule(".shade", Keep, Line, "opacity:.35"),
    Rule(".folded", Faint, Paper, "stroke-dasharray:2 2"),
    Rule("text.cap", Keep, Paper, "font-size:9px;text-anchor:middle"),
    Rule(
        ".parting",
        Alert,
        Keep,
        "stroke-width:2;stroke-dasharray:6 3",
    ),
];

// The colours of a hart: of its boxes' edges, and of their areas.
#[derive(Clone, Copy)]
struct Hart(&'static str, &'static str);

// The colours of a page.
#[derive(Clone, Copy)]
struct Palette {
    paper: &'static str,
    text: &'static str,
    faint: &'static str,
    line: &'static str,
    alert: &'static str,
    fill: &'static str,
    harts: [Hart; 8],
}

const LIGHT: Palette = Palette {
    paper: "#fff",
    text: "#1b1f24",
    faint: "#5d6673",
    line: "#d9dde3",
    alert: "#a8320a",
    fill: "#9dbde4",
    harts: [
        Hart("#2459a8", "#e6eefb"),
        Hart("#7a5a00", "#fbf1d2"),
        Hart("#1d6f45", "#dff3e6"),
        Hart("#74398f", "#f2e4f8"),
        Hart("#0f6b78", "#daf1f4"),
        Hart("#9a3f12", "#fbe6da"),
        Hart("#4b5563", "#e9ebef"),
        Hart("#9c2a63", "#fbe2ee"),
    ],
};

const DARK: Palette = Palette {
    paper: "#14171b",
    text: "#e8eaed",
    faint: "#a3acb8",
    line: "#343a42",
    alert: "#ff9a70",
    fill: "#2f5587",
    harts: [
        Hart("#8db8ee", "#1b2a40"),
        Hart("#e0bd5a", "#362c10"),
        Hart("#79cf9f", "#173324"),
        Hart("#cf9be6", "#33213c"),
        Hart("#73cbd8", "#13323a"),
        Hart("#f0a27c", "#3b2417"),
        Hart("#b6bec9", "#2a2f36"),
        Hart("#f095c2", "#3c1d2e"),
    ],
};

impl Palette {
    // The colour of an ink, if it sets one.
    fn colour(&self, ink: Ink) -> Option<&'static str> {
        match ink {
            Keep => None,
            Bare => Some("none"),
            Paper => Some(self.paper),
            Text => Some(self.text),
            Faint => Some(self.faint),
            Line => Some(self.line),
            Alert => Some(self.alert),
            Fill => Some(self.fill),
        }
    }
}

// The colour of a stroke or an area, if there is one.
fn add_colour<A: Allocator>(
    page: &mut Page<A>,
    property: &'static str,
    colour: Option<&'static str>,
) {
    if let Some(colour) = colour {
        page.add(&[Mark(property), Mark(colour), Mark(";")]);
    }
}

// A rule in the colours of a palette.
fn add_rule<A: Allocator>(page: &mut Page<A>, rule: &Rule, palette: &Palette) {
    let Rule(on, stroke, area, rest) = *rule;
    page.add(&[Mark(".xvsh "), Mark(on), Mark("{")]);
    add_colour(page, "stroke:", palette.colour(stroke));
    add_colour(page, "fill:", palette.colour(area));
    page.add(&[Mark(rest), Mark("}\n")]);
}

// The rules of a hart.
fn add_hart<A: Allocator>(page: &mut Page<A>, number: usize, hart: &Hart) {
    let Hart(edge, area) = *hart;
    page.fill(
        ".xvsh .h% .body{stroke:%;fill:%}\n.xvsh .h% rect.cap{fill:%}\n",
        &[Num(number), Mark(edge), Mark(area), Num(number), Mark(edge)],
    );
}

// All rules in the colours of a palette.
fn add_rules<A: Allocator>(page: &mut Page<A>, palette: &Palette) {
    for rule in &RULES {
        add_rule(page, rule, palette);
    }
    for (number, hart) in palette.harts.iter().enumerate() {
        add_hart(page, number, hart);
    }
}

/// The style of a picture: in the colours of a light page, and where the reader wants dark ones in those of a dark one.
pub(crate) fn add_style<A: Allocator>(page: &mut Page<A>) {
    page.mark("<style>\n");
    add_rules(page, &LIGHT);
    page.mark("@media (prefers-color-scheme:dark){\n");
    add_rules(page, &DARK);
    page.mark("}\n</style>\n");
}
