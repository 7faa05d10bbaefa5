//! Traces that are written by hand.

/// A run of `a | b`: process 1 forks process 2, which makes a pipe and sleeps until process 1 has written to it.
pub(crate) const TRACE: &str =
    r#"{"kind":"run","format":"xvsh-trace","version":1,"script":"a | b\n","profile":"xv6","harts":2,"input":3,"files":[{"name":"f","length":2,"head":"x\n"}]}
{"kind":"dispatch","n":1,"hart":0,"pid":1,"born":0,"parent":0,"prog":"sh","node":"script"}
{"kind":"trap","n":2,"from":1,"hart":0,"pid":1,"born":0,"parent":0,"prog":"sh","node":"script","call":{"name":"fork"},"state":"runnable","reply":{"type":"done"},"child":{"pid":2,"prog":"sh","node":"pipe","cmd":"a | b","line":1}}
{"kind":"dispatch","n":3,"hart":1,"pid":2,"born":2,"parent":1,"prog":"sh","node":"pipe","cmd":"a | b","line":1}
{"kind":"trap","n":4,"from":3,"hart":1,"pid":2,"born":2,"parent":1,"prog":"sh","node":"pipe","cmd":"a | b","line":1,"call":{"name":"pipe"},"state":"runnable","reply":{"type":"ends","read":3,"write":4},"pipes":[{"pipe":4,"held":0,"readers":[2],"writers":[1,2]}]}
{"kind":"dispatch","n":5,"hart":1,"pid":2,"born":2,"parent":1,"prog":"b","cmd":"b","line":1}
{"kind":"trap","n":6,"from":5,"hart":1,"pid":2,"born":2,"parent":1,"prog":"b","cmd":"b","line":1,"call":{"name":"read","fd":3,"size":512},"object":{"type":"pipe","pipe":4,"end":"read"},"state":"asleep","sleep":{"on":"pipe_bytes","pipe":4}}
{"kind":"dispatch","n":7,"hart":0,"pid":1,"born":0,"parent":0,"prog":"sh","node":"script"}
{"kind":"trap","n":8,"from":7,"hart":0,"pid":1,"born":0,"parent":0,"prog":"sh","node":"script","call":{"name":"write","fd":4,"size":2,"data":"x\n"},"object":{"type":"pipe","pipe":4,"end":"write"},"state":"runnable","reply":{"type":"done"},"moved":2,"woken":[2],"pipes":[{"pipe":4,"held":2,"readers":[2],"writers":[1,2]}]}
{"kind":"dispatch","n":9,"hart":1,"pid":2,"born":2,"parent":1,"prog":"b","cmd":"b","line":1}
{"kind":"dispatch","n":10,"hart":0,"pid":1,"born":0,"parent":0,"prog":"sh","node":"script"}
{"kind":"trap","n":11,"from":10,"hart":0,"pid":1,"born":0,"parent":0,"prog":"sh","node":"script","call":{"name":"wait"},"state":"asleep","sleep":{"on":"children"}}
{"kind":"trap","n":12,"from":9,"hart":1,"pid":2,"born":2,"parent":1,"prog":"b","cmd":"b","line":1,"call":{"name":"write","fd":1,"size":2,"data":"x\n"},"object":{"type":"out"},"state":"runnable","reply":{"type":"done"},"moved":2,"out":"x\n"}
{"kind":"end","outcome":"unfinished","events":12,"by_hart":[6,6],"out":"x\n","diag":"","full":null,"files":[{"name":"f","length":2,"head":"x\n"}]}
"#;

/// Another run of `a | b`, which parts from that one at event 9: there process 1 begins to run, and process 2 never prints.
pub(crate) const OTHER: &str =
    r#"{"kind":"run","format":"xvsh-trace","version":1,"script":"a | b\n","profile":"xv6","harts":2,"input":3,"files":[{"name":"f","length":2,"head":"x\n"}]}
{"kind":"dispatch","n":1,"hart":0,"pid":1,"born":0,"parent":0,"prog":"sh","node":"script"}
{"kind":"trap","n":2,"from":1,"hart":0,"pid":1,"born":0,"parent":0,"prog":"sh","node":"script","call":{"name":"fork"},"state":"runnable","reply":{"type":"done"},"child":{"pid":2,"prog":"sh","node":"pipe","cmd":"a | b","line":1}}
{"kind":"dispatch","n":3,"hart":1,"pid":2,"born":2,"parent":1,"prog":"sh","node":"pipe","cmd":"a | b","line":1}
{"kind":"trap","n":4,"from":3,"hart":1,"pid":2,"born":2,"parent":1,"prog":"sh","node":"pipe","cmd":"a | b","line":1,"call":{"name":"pipe"},"state":"runnable","reply":{"type":"ends","read":3,"write":4},"pipes":[{"pipe":4,"held":0,"readers":[2],"writers":[1,2]}]}
{"kind":"dispatch","n":5,"hart":1,"pid":2,"born":2,"parent":1,"prog":"b","cmd":"b","line":1}
{"kind":"trap","n":6,"from":5,"hart":1,"pid":2,"born":2,"parent":1,"prog":"b","cmd":"b","line":1,"call":{"name":"read","fd":3,"size":512},"object":{"type":"pipe","pipe":4,"end":"read"},"state":"asleep","sleep":{"on":"pipe_bytes","pipe":4}}
{"kind":"dispatch","n":7,"hart":0,"pid":1,"born":0,"parent":0,"prog":"sh","node":"script"}
{"kind":"trap","n":8,"from":7,"hart":0,"pid":1,"born":0,"parent":0,"prog":"sh","node":"script","call":{"name":"write","fd":4,"size":2,"data":"x\n"},"object":{"type":"pipe","pipe":4,"end":"write"},"state":"runnable","reply":{"type":"done"},"moved":2,"woken":[2],"pipes":[{"pipe":4,"held":2,"readers":[2],"writers":[1,2]}]}
{"kind":"dispatch","n":9,"hart":0,"pid":1,"born":0,"parent":0,"prog":"sh","node":"script"}
{"kind":"end","outcome":"unfinished","events":9,"by_hart":[5,4],"out":"x\n","diag":"","full":null,"files":[]}
"#;
