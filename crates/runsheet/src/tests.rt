// Scenarios, with their run sheets.
use entries::HeadCall;
use parts::Call;
use rules::Granted;
use sheets::{CellRow, Row, run_sheet};
use std::alloc::Global;
use std::process::Abort;
use std::test::Fail;

// A text, and its run sheet.
#[derive(Clone, Copy)]
struct Case<'a> {
    text: &'a [u8],
    sheet: &'a str,
}

fn each_run(rt: &impl Abort, heap: Global, cases: &[Case]) -> Result<(), Fail> {
    for case in cases {
        let out = run_sheet(heap, case.text)?;
        assert_eq!(rt; out.as_str(), case.sheet, "{}", case.sheet);
    }
    Ok(())
}

static WHOLE: &[Case] = &[
    // three interrupts send a head to software, which finds a word changed, and then takes the lock
    Case {
        text: b"rig\t2\t2\tlines\nset\t0\t5\nset\t1\t7\no\t0\nj\t0\na\t0\nj\t0\na\t0\nj\t0\na\t0\nr\t0\t0\no\t1\nw\t1\t0\t6\nc\t1\nr\t0\t1\na\t0\nr\t0\t0\nw\t0\t1\t9\nr\t0\t1\no\t1\nr\t1\t0\nc\t0\nr\t1\t1\na\t1\np\t0\na\t1\nr\t1\t1\nc\t1\n",
        sheet: "o\t0\t0\t1\nj\t0\t6\t4\na\t0\t0\t1\nj\t0\t6\t4\na\t0\t0\t1\nj\t0\t6\t4\na\t0\t0\t2\nr\t0\t0\t5\no\t1\t0\t1\nw\t1\t0\t-\nc\t1\t0\t1\nr\t0\t6\t5\na\t0\t0\t2\nr\t0\t0\t6\nw\t0\t0\t-\nr\t0\t0\t9\no\t1\t0\t1\nr\t1\t0\t6\nc\t0\t1\t5\nr\t1\t6\t3\na\t1\t7\t-\np\t0\t0\t0\na\t1\t0\t1\nr\t1\t0\t9\nc\t1\t0\t2\ncell\t0\t6\ncell\t1\t9\n",
    },
    // the later of two settings, the least amount, a cell beyond the rig
    Case {
        text: b"rig\t1\t3\tstores\nset\t1\t5\nset\t0\t-7\nset\t1\t-2147483648\no\t0\nr\t0\t0\nr\t0\t1\nr\t0\t3\nc\t0",
        sheet: "o\t0\t0\t1\nr\t0\t0\t-7\nr\t0\t0\t-2147483648\nr\t0\t4\t-\nc\t0\t0\t1\ncell\t0\t-7\ncell\t1\t-2147483648\ncell\t2\t0\n",
    },
    Case {
        text: b"rig\t1\t1\tlines",
        sheet: "cell\t0\t0\n",
    },
];

static FAULTY: &[Case] = &[
    Case {
        text: b"rig\t1\t1\tlines\no\t0\nx\n",
        sheet: "o\t0\t0\t1\nfault\t21\t3\t18\tline\n",
    },
    Case {
        text: b"rig\t9\t1\tlines\no\t0\n",
        sheet: "fault\t11\t1\t0\trig\n",
    },
    Case {
        text: b"",
        sheet: "fault\t24\t1\t0\tline\n",
    },
];

#[test]
fn sheets_of_texts(rt: HostRuntime) -> Result<(), Fail> {
    let heap = rt.alloc();
    each_run(&rt, heap, WHOLE)?;
    each_run(&rt, heap, FAULTY)
}

// Lines by themselves.
#[test]
fn lines_alone(rt: HostRuntime) -> Result<(), Fail> {
    let heap = rt.alloc();
    let cell = CellRow { cell: 3, word: -5 };
    let line = format!(in heap; "{cell}")?;
    assert_eq!(rt; line.as_str(), "cell\t3\t-5");
    let granted = Row {
        made: HeadCall {
            head: 7,
            call: Call::Write(0, 1500),
        },
        answer: Ok(Granted::Done),
    };
    let line = format!(in heap; "{granted}")?;
    assert_eq!(rt; line.as_str(), "w\t7\t0\t-");
    let read = Row {
        made: HeadCall {
            head: 12,
            call: Call::Read(0),
        },
        answer: Ok(Granted::Word(-1500)),
    };
    let line = format!(in heap; "{read}")?;
    assert_eq!(rt; line.as_str(), "r\t12\t0\t-1500");
    Ok(())
}
