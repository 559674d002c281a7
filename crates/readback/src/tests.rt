// Whole and spoiled texts, with what is told of them.
use entries::{Entry, Setting};
use faults::{LineFault, Place, RigFault};
use scenario::readback;
use std::alloc::Global;
use std::process::Abort;
use std::test::Fail;

// A text, and what is told of it.
#[derive(Clone, Copy)]
struct Case<'a> {
    text: &'a [u8],
    told: &'a str,
}

fn told(rt: &impl Abort, heap: Global, text: &[u8], expected: &str) -> Result<(), Fail> {
    let out = readback(heap, text)?;
    assert_eq!(rt; out.as_str(), expected, "{}", expected);
    Ok(())
}

fn each_told(rt: &impl Abort, heap: Global, cases: &[Case]) -> Result<(), Fail> {
    for case in cases {
        told(rt, heap, case.text, case.told)?;
    }
    Ok(())
}

static TEXTS_WITHOUT_A_RIG: &[Case] = &[
    Case {
        text: b"",
        told: "fault\t24\t1\t0\tline\n",
    },
    Case {
        text: b"\n",
        told: "fault\t21\t1\t0\tline\n",
    },
    Case {
        text: b"\t\t\t",
        told: "fault\t21\t1\t0\tline\n",
    },
    Case {
        text: b"o\t0\nrig\t1\t1\tlines\n",
        told: "fault\t24\t1\t0\tline\n",
    },
    Case {
        text: b"set\t1",
        told: "fault\t24\t1\t0\tline\n",
    },
    Case {
        text: b"Rig\t1\t1\tlines\n",
        told: "fault\t21\t1\t0\tline\n",
    },
];

static RIG_LINES: &[Case] = &[
    Case {
        text: b"rig\t8\t1024\tstores\tcareful",
        told: "rig\t8\t1024\tstores\tcareful\nwhole\t1\n",
    },
    Case {
        text: b"rig\t1\t1\tlines\r\n",
        told: "fault\t21\t1\t8\tfield\n",
    },
    Case {
        text: b"rig\t1\t1\tlines\tbrave",
        told: "fault\t21\t1\t14\tfield\n",
    },
    Case {
        text: b"rig\tx\ty\tz",
        told: "fault\t23\t1\t4\tfield\n",
    },
    Case {
        text: b"rig\t1\t1",
        told: "fault\t22\t1\t0\tline\n",
    },
    Case {
        text: b"rig\t1\t1\tlines\tplain\tlate",
        told: "fault\t22\t1\t0\tline\n",
    },
    Case {
        text: b"rig\t9\t1\tlines",
        told: "fault\t11\t1\t0\trig\n",
    },
    Case {
        text: b"rig\t0\t1\tlines",
        told: "fault\t11\t1\t0\trig\n",
    },
    Case {
        text: b"rig\t1\t0\tlines",
        told: "fault\t11\t1\t0\trig\n",
    },
    Case {
        text: b"rig\t1\t1025\tlines",
        told: "fault\t11\t1\t0\trig\n",
    },
];

static NUMBERS_AND_AMOUNTS: &[Case] = &[
    Case {
        text: b"rig\t1\t1\tlines\nset\t0\t-0\n",
        told: "rig\t1\t1\tlines\tplain\nfault\t23\t2\t20\tfield\n",
    },
    Case {
        text: b"rig\t1\t1\tlines\nset\t00\t1\n",
        told: "rig\t1\t1\tlines\tplain\nfault\t23\t2\t18\tfield\n",
    },
    Case {
        text: b"rig\t1\t1\tlines\nset\t0\t+1\n",
        told: "rig\t1\t1\tlines\tplain\nfault\t23\t2\t20\tfield\n",
    },
    Case {
        text: b"rig\t1\t1\tlines\nset\t0\t--1\n",
        told: "rig\t1\t1\tlines\tplain\nfault\t23\t2\t20\tfield\n",
    },
    Case {
        text: b"rig\t1\t1\tlines\nset\t0\t2147483648\n",
        told: "rig\t1\t1\tlines\tplain\nfault\t23\t2\t20\tfield\n",
    },
    Case {
        text: b"rig\t1\t1\tlines\nset\t0\t-2147483649\n",
        told: "rig\t1\t1\tlines\tplain\nfault\t23\t2\t20\tfield\n",
    },
    Case {
        text: b"rig\t1\t1\tlines\no\t4294967296\n",
        told: "rig\t1\t1\tlines\tplain\nfault\t23\t2\t16\tfield\n",
    },
    Case {
        text: b"rig\t1\t1\tlines\nr\t0\t",
        told: "rig\t1\t1\tlines\tplain\nfault\t23\t2\t18\tfield\n",
    },
    Case {
        text: b"rig\t1\t1\tlines\nset\t0\t2147483647",
        told: "rig\t1\t1\tlines\tplain\nset\t0\t2147483647\nwhole\t2\n",
    },
    Case {
        text: b"rig\t1\t1\tlines\nset\t0\t-2147483648",
        told: "rig\t1\t1\tlines\tplain\nset\t0\t-2147483648\nwhole\t2\n",
    },
    Case {
        text: b"rig\t1\t1\tlines\no\t4294967295",
        told: "rig\t1\t1\tlines\tplain\no\t4294967295\nwhole\t2\n",
    },
];

static LATER_LINES: &[Case] = &[
    Case {
        text: b"rig\t1\t1\tlines\nrig\t1\t1\tlines\n",
        told: "rig\t1\t1\tlines\tplain\nfault\t24\t2\t14\tline\n",
    },
    Case {
        text: b"rig\t1\t1\tlines\no\t0\nset\t0\t1\n",
        told: "rig\t1\t1\tlines\tplain\no\t0\nfault\t24\t3\t18\tline\n",
    },
    Case {
        text: b"rig\t1\t1\tlines\no\t0\nset\t0\n",
        told: "rig\t1\t1\tlines\tplain\no\t0\nfault\t24\t3\t18\tline\n",
    },
    Case {
        text: b"rig\t1\t1\tlines\nset\t1\t5",
        told: "rig\t1\t1\tlines\tplain\nfault\t4\t2\t14\trig\n",
    },
    Case {
        text: b"rig\t1\t1\tlines\nset\t1\tx",
        told: "rig\t1\t1\tlines\tplain\nfault\t23\t2\t20\tfield\n",
    },
    Case {
        text: b"rig\t1\t1\tlines\no\t0\t\n",
        told: "rig\t1\t1\tlines\tplain\nfault\t22\t2\t14\tline\n",
    },
    Case {
        text: b"rig\t1\t1\tlines\n\n",
        told: "rig\t1\t1\tlines\tplain\nfault\t21\t2\t14\tline\n",
    },
    Case {
        text: b"rig\t1\t1\tlines\n\xff\t0\n",
        told: "rig\t1\t1\tlines\tplain\nfault\t21\t2\t14\tline\n",
    },
    Case {
        text: b"rig\t1\t1\tlines\no\t0\nx\t0",
        told: "rig\t1\t1\tlines\tplain\no\t0\nfault\t21\t3\t18\tline\n",
    },
];

#[test]
fn texts(rt: HostRuntime) -> Result<(), Fail> {
    let heap = rt.alloc();
    each_told(&rt, heap, TEXTS_WITHOUT_A_RIG)?;
    each_told(&rt, heap, RIG_LINES)?;
    each_told(&rt, heap, NUMBERS_AND_AMOUNTS)?;
    each_told(&rt, heap, LATER_LINES)
}

#[test]
fn without_memory(rt: HostRuntime) {
    assert_eq!(rt; scenario::check(b"rig\t1\t1\tlines\no\t0"), Ok(2));
    let second = Place { line: 2, byte: 14 };
    let miscounted = RigFault::Line(LineFault::Miscounted(second));
    assert_eq!(rt; scenario::check(b"rig\t1\t1\tlines\no"), Err(miscounted));
    assert!(rt; scenario::check(b"").is_err());
}

#[test]
fn longest_text(rt: HostRuntime) -> Result<(), Fail> {
    let heap = rt.alloc();
    // 20 bytes, and 16,379 lines of 4: 65,536 in all
    let mut text = b"rig\t1\t1\tlines\tplain\n".to_vec(heap)?;
    text.extend_from_slice(&b"o\t0\n".repeat(heap, 16_379)?)?;
    assert_eq!(rt; text.len(), 65_536);
    let out = readback(heap, &text)?;
    assert!(rt; out.as_str().starts_with("rig\t1\t1\tlines\tplain\no\t0\n"));
    assert!(rt; out.as_str().ends_with("o\t0\nwhole\t16380\n"));
    text.push(b'\n')?;
    told(&rt, heap, &text, "fault\t25\t0\t65536\tline\n")
}

// The message of a fault, through all layers.
#[test]
fn message(rt: HostRuntime) -> Result<(), Fail> {
    let heap = rt.alloc();
    let reading = scenario::read(heap, b"rig\t1\t1\tlines\nset\t0\tx");
    let Err(error) = reading.end else {
        return Err(Fail::new("a faulty text is told as whole"));
    };
    let message = format!(in heap; "{error}")?;
    assert_eq!(rt;
        message.as_str(),
        "line 2, byte 20: the field is no number in range"
    );
    Ok(())
}

// What a text says, rendered; and one entry by itself.
#[test]
fn rendered(rt: HostRuntime) -> Result<(), Fail> {
    let heap = rt.alloc();
    let reading = scenario::read(heap, b"rig\t1\t2\tlines\nset\t1\t-5\nw\t0\t1\t7");
    assert!(rt; reading.end.is_ok());
    let text = reading.scenario.render(heap)?;
    assert_eq!(rt;
        text.as_str(),
        "rig\t1\t2\tlines\tplain\nset\t1\t-5\nw\t0\t1\t7\n"
    );
    let setting = Setting {
        cell: 1,
        amount: -5,
    };
    let line = format!(in heap; "{}", Entry::Set(setting))?;
    assert_eq!(rt; line.as_str(), "set\t1\t-5");
    Ok(())
}
