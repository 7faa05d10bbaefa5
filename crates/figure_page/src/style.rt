//! What each page has: how it looks, and what its marks mean.

/// The head of a page, before its title.
pub(crate) const HEAD: &str =
    "<!DOCTYPE html>\n<html lang=\"en\">\n<head>\n<meta charset=\"utf-8\">\n<meta name=\"viewport\" content=\"width=device-width, initial-scale=1\">\n<meta http-equiv=\"Content-Security-Policy\" content=\"default-src 'none'; style-src 'unsafe-inline'\">\n<meta name=\"color-scheme\" content=\"light dark\">\n";

/// The style, and the patterns of sleep.
pub(crate) const STYLE: &str = "<style>
:root{--paper:#fff;--ink:#1b1f24;--faint:#5d6673;--line:#d9dde3;--alert:#a8320a;--fill:#9dbde4;--edge:#2f5f9e;
--h0:#2459a8;--h1:#7a5a00;--h2:#1d6f45;--h3:#74398f;--h4:#0f6b78;--h5:#9a3f12;--h6:#4b5563;--h7:#9c2a63;
--t0:#e6eefb;--t1:#fbf1d2;--t2:#dff3e6;--t3:#f2e4f8;--t4:#daf1f4;--t5:#fbe6da;--t6:#e9ebef;--t7:#fbe2ee}
@media (prefers-color-scheme:dark){:root{--paper:#14171b;--ink:#e8eaed;--faint:#a3acb8;--line:#343a42;--alert:#ff9a70;--fill:#2f5587;--edge:#8db8ee;
--h0:#8db8ee;--h1:#e0bd5a;--h2:#79cf9f;--h3:#cf9be6;--h4:#73cbd8;--h5:#f0a27c;--h6:#b6bec9;--h7:#f095c2;
--t0:#1b2a40;--t1:#362c10;--t2:#173324;--t3:#33213c;--t4:#13323a;--t5:#3b2417;--t6:#2a2f36;--t7:#3c1d2e}}
@media print{:root{--paper:#fff;--ink:#000;--faint:#444;--line:#bbb;--alert:#8a2500;--fill:#b9cbe2;--edge:#1d4374;
--h0:#2459a8;--h1:#7a5a00;--h2:#1d6f45;--h3:#74398f;--h4:#0f6b78;--h5:#9a3f12;--h6:#4b5563;--h7:#9c2a63;
--t0:#fff;--t1:#fff;--t2:#fff;--t3:#fff;--t4:#fff;--t5:#fff;--t6:#fff;--t7:#fff}}
*{box-sizing:border-box}
pre,code,td,dd,p,text,tspan{unicode-bidi:bidi-override}
body{margin:0 auto;padding:24px 20px;max-width:1400px;background:var(--paper);color:var(--ink);font:15px/1.45 system-ui,sans-serif}
h1{font-size:15px;margin:0 0 8px;color:var(--faint)}
h2{font-size:18px;margin:28px 0 8px}
h3{font-size:15px;margin:16px 0 6px}
pre,code,.mono,svg{font-family:ui-monospace,'DejaVu Sans Mono',Menlo,Consolas,monospace}
pre{margin:0;white-space:pre-wrap;overflow-wrap:anywhere}
pre.script{font-size:22px;line-height:1.35;padding-bottom:12px;border-bottom:1px solid var(--line)}
.facts{display:grid;grid-template-columns:repeat(auto-fit,minmax(220px,1fr));gap:12px 28px;margin:12px 0 0}
.facts dt{color:var(--faint);font-size:13px}
.facts dd{margin:2px 0 0;overflow-wrap:anywhere}
.note{color:var(--faint);margin:4px 0}
.story{columns:3 300px;column-gap:28px;list-style:none;margin:0;padding:0;font-size:13px}
.story li{break-inside:avoid;margin:0 0 4px;overflow-wrap:anywhere;unicode-bidi:bidi-override}
.key{display:flex;flex-wrap:wrap;gap:4px 20px;margin:0 0 10px;padding:0;list-style:none;color:var(--faint);font-size:13px}
.key svg{vertical-align:-4px;margin-right:6px}
.strip{display:flex;border-top:1px solid var(--line);padding:6px 0 12px;break-inside:avoid}
.side{flex:0 0 222px}
.time{flex:1 1 auto;min-width:0;overflow-x:auto}
svg{display:block}
.key svg{display:inline-block}
text{font-size:10px;fill:var(--ink);white-space:pre}
.name{font-size:11px}
.pid,.call,.out{font-weight:700}
.out{font-size:11px}
.call,.small,.cap{text-anchor:middle}
.left{text-anchor:start}
.faint{fill:var(--faint)}
.alert{fill:var(--alert);color:var(--alert);font-weight:700}
.wakes{color:var(--alert)}
.grid{stroke:var(--line);stroke-dasharray:1 3}
.alive{stroke:var(--faint);fill:none}
.zombie{stroke:var(--faint);stroke-width:2;stroke-dasharray:1 4;fill:none}
.fork{stroke:var(--ink);fill:var(--paper)}
.reap{stroke:var(--faint);stroke-dasharray:1 3;fill:none}
rect.reap{fill:var(--paper);stroke-dasharray:none}
.wake{stroke:var(--alert);stroke-dasharray:4 2;stroke-width:2;fill:none}
.tip{fill:var(--alert)}
.sleep{stroke:var(--faint)}
.children{fill:url(#children)}.bytes{fill:url(#bytes)}.room{fill:url(#room)}
.hatch{stroke:var(--faint);fill:none}
.under{fill:var(--paper)}
.base{stroke:var(--line)}
.fill{fill:var(--fill)}
.rail{stroke:var(--ink);stroke-width:2}
.open .body{stroke-dasharray:3 2}
.tick{stroke:var(--ink)}
.file{fill:var(--paper);stroke:var(--faint)}
.file.empty{stroke-dasharray:3 2}
.shade{fill:var(--line);opacity:.35}
.folded{fill:var(--paper);stroke:var(--faint);stroke-dasharray:2 2}
.body{stroke:var(--c);fill:var(--t)}
rect.cap{fill:var(--c)}
text.cap{fill:var(--paper);font-size:9px}
.h0{--c:var(--h0);--t:var(--t0)}.h1{--c:var(--h1);--t:var(--t1)}.h2{--c:var(--h2);--t:var(--t2)}.h3{--c:var(--h3);--t:var(--t3)}
.h4{--c:var(--h4);--t:var(--t4)}.h5{--c:var(--h5);--t:var(--t5)}.h6{--c:var(--h6);--t:var(--t6)}.h7{--c:var(--h7);--t:var(--t7)}
.wide{overflow-x:auto}
table{border-collapse:collapse;width:100%;font-size:13px}
caption{text-align:left;color:var(--faint);padding-bottom:6px}
th,td{text-align:left;vertical-align:top;padding:3px 10px 3px 0;border-bottom:1px solid var(--line);overflow-wrap:anywhere}
th{white-space:nowrap}
td:nth-child(-n+3),th:nth-child(-n+3){white-space:nowrap}
mark{background:var(--t1);color:inherit;border-bottom:2px solid var(--alert)}
mark.ends{font-style:italic;font-family:system-ui,sans-serif}
.differ{table-layout:fixed}
.differ td:first-child,.differ th:first-child{width:110px}
.differ td,.differ th{white-space:normal}
.picture{overflow-x:auto;padding-bottom:6px}
.picture h3{margin:14px 0 4px}
.picture .note{margin:2px 0}
.picture text{font-size:12px}
.lane summary{display:block;list-style:none;width:max-content}
.lane summary::-webkit-details-marker{display:none}
.lane summary:focus-visible{outline:2px solid var(--edge)}
.who{display:block;position:sticky;left:0;width:max-content;font-size:14px}
.who code{font-weight:700}
.lane[open] .shut,.lane:not([open]) .ajar{display:none}
.lane summary:hover .folded{stroke:var(--ink)}
.opened{position:sticky;left:0;max-width:min(100%,94vw);padding:0 0 8px 12px;font-size:13px}
.opened ol{list-style:none;margin:0;padding:0}
.decides{fill:var(--line);opacity:.5}
.turned{stroke:var(--alert);stroke-width:3}
.later{fill:var(--paper);stroke:var(--alert);stroke-width:2}
.words{margin:8px 0}
.first{border-left:6px solid var(--h0);padding-left:8px}
.second{border-left:6px double var(--h5);padding-left:8px}
.why{display:grid;grid-template-columns:1fr 1fr;gap:0 20px;font-size:14px}
.why>*{min-width:0}
.why h3{margin:4px 0}
.why ol{list-style:none;margin:0;padding:0}
.why li{margin:0 0 4px;overflow-wrap:anywhere}
.before{align-self:end}
.turn{border:2px solid var(--alert);padding:8px;margin:4px 0 8px;overflow-wrap:anywhere}
.turn.first{border-left:6px solid var(--h0)}
.turn.second{border-left:6px double var(--h5)}
.turn b{color:var(--alert)}
summary{cursor:pointer}
summary h2{display:inline}
.whole{border-top:1px solid var(--line);padding:10px 0}
.two{display:grid;grid-template-columns:repeat(auto-fit,minmax(300px,1fr));gap:12px}
.card{border:1px solid var(--line);border-radius:4px;padding:10px 12px;overflow-wrap:anywhere}
.card p{margin:6px 0 0}
@media (max-width:700px){.lane svg{zoom:.74}body{padding:14px 10px}pre.script{font-size:17px}.side{flex-basis:124px;overflow:hidden}table{min-width:640px}table.differ{min-width:0}.differ td:first-child,.differ th:first-child{width:72px}.why{gap:0 8px;font-size:12px}}
@media print{@page{size:A4 landscape;margin:10mm}body{padding:0;max-width:none;font-size:11px}.strip{display:flex}.side{flex:222 0 0;min-width:0}.time{flex:1120 0 0;min-width:0;overflow:visible}.strip svg{width:100%;height:auto}h2{break-after:avoid}tr{break-inside:avoid}table{font-size:9px}}
</style>
</head>
<body>
<svg width=\"0\" height=\"0\" aria-hidden=\"true\" style=\"position:absolute\"><defs>
";

/// What stands between the patterns of sleep and what a page says.
pub(crate) const BEGUN: &str = "</defs></svg>
";

/// What the marks of a figure mean.
pub(crate) const KEY: &str = "<ul class=\"key\">
<li><svg width=\"30\" height=\"16\" aria-hidden=\"true\"><g class=\"h0\"><rect class=\"body\" x=\"1\" y=\"1\" width=\"28\" height=\"14\"/></g></svg>runs, and makes the call that is named, with what came of it</li>
<li><svg width=\"30\" height=\"16\" aria-hidden=\"true\"><path class=\"alive\" d=\"M0 8H30\"/></svg>could run</li>
<li><svg width=\"30\" height=\"16\" aria-hidden=\"true\"><rect class=\"sleep children\" y=\"1\" width=\"29\" height=\"14\"/></svg>asleep until a child exits</li>
<li><svg width=\"30\" height=\"16\" aria-hidden=\"true\"><rect class=\"sleep bytes\" y=\"1\" width=\"29\" height=\"14\"/></svg>until a pipe has bytes</li>
<li><svg width=\"30\" height=\"16\" aria-hidden=\"true\"><rect class=\"sleep room\" y=\"1\" width=\"29\" height=\"14\"/></svg>until a pipe has room</li>
<li><svg width=\"30\" height=\"16\" aria-hidden=\"true\"><path class=\"zombie\" d=\"M0 8H30\"/></svg>ended, not waited for yet</li>
<li><svg width=\"12\" height=\"18\" aria-hidden=\"true\"><path class=\"fork\" d=\"M6 0V12\"/><circle class=\"fork\" cx=\"6\" cy=\"12\" r=\"3\"/></svg>fork</li>
<li><svg width=\"12\" height=\"18\" aria-hidden=\"true\"><path class=\"wake\" d=\"M6 0V10\"/><path class=\"tip\" d=\"M2 10H10L6 17Z\"/></svg>wakes</li>
<li><svg width=\"12\" height=\"18\" aria-hidden=\"true\"><path class=\"reap\" d=\"M6 0V10\"/><rect class=\"reap\" x=\"3\" y=\"10\" width=\"6\" height=\"6\"/></svg>wait takes the process out</li>
<li><svg width=\"30\" height=\"16\" aria-hidden=\"true\"><rect class=\"fill\" y=\"4\" width=\"29\" height=\"12\"/></svg>bytes in a pipe, up to 512; above and below, the processes that hold its ends</li>
<li><svg width=\"30\" height=\"16\" aria-hidden=\"true\"><rect class=\"file\" x=\"1\" y=\"1\" width=\"28\" height=\"14\"/></svg>what a file holds</li>
</ul>
";
