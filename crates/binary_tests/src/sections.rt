//! Small frame sections through each call that reads them (`frame_entries`, `frame_rows`, `rule_postfix`).
ghost use Rattle.std.specs.Prelude.{◌+◌, ◌<◌, ◌^◌};

use crate::comparison::same;
use frame_entries::{Body, Fde, entries};
use frame_rows::{inspect, rows};
use rule_postfix::translate;
use std::alloc::Global;
use std::process::Abort;
use std::test::Fail;
use sym_edges::{OutOfMemory, Part, Reason, Sect, Stop};

/// A CIE with the CFA at rsp + 8 and the return address at the CFA - 8, and at 18 the FDE of a function from 1000 to 1020 that pushes rbp.
const PUSH_RBP: &[u8] = b"\x14\0\0\0\0\0\0\0\x01zR\0\x01\x78\x10\x01\x1b\x0c\x07\x08\x90\x01\0\0\
    \x1c\0\0\0\x1c\0\0\0\xe0\xef\xff\xff\x20\0\0\0\0\x41\x0e\x10\x86\x02\x43\x0d\x06\x4a\x0c\x07\x08\0\0\0";

/// The same CIE, and a function from 1000 to 1010 in which rax is saved for a while.
const SAVED_RAX: &[u8] = b"\x14\0\0\0\0\0\0\0\x01zR\0\x01\x78\x10\x01\x1b\x0c\x07\x08\x90\x01\0\0\
    \x13\0\0\0\x1c\0\0\0\xe0\xef\xff\xff\x10\0\0\0\0\x44\x80\x03\x44\x07\0";

/// The same CIE, and a function with a `restore_state` alone.
const RESTORING: &[u8] = b"\x14\0\0\0\0\0\0\0\x01zR\0\x01\x78\x10\x01\x1b\x0c\x07\x08\x90\x01\0\0\
    \x0e\0\0\0\x1c\0\0\0\xe0\xef\xff\xff\x20\0\0\0\0\x0b";

/// A section; the addresses of its entry's rows, the entry's records, and the reason why it is omitted.
const SECTIONS: [(&str, &[u8], &[u64], &[u8], Option<Reason>); 3] = [
    (
        "push rbp",
        PUSH_RBP,
        &[0x1000, 0x1001, 0x1004, 0x100e],
        b"STACK CFI INIT 1000 20 .cfa: $rsp 8 + .ra: .cfa -8 + ^\n\
        STACK CFI 1001 .cfa: $rsp 16 + $rbp: .cfa -16 + ^\n\
        STACK CFI 1004 .cfa: $rbp 16 +\nSTACK CFI 100e .cfa: $rsp 8 +\n",
        None,
    ),
    (
        "a column that becomes undefined",
        SAVED_RAX,
        &[0x1000, 0x1004, 0x1008],
        b"STACK CFI INIT 1000 8 .cfa: $rsp 8 + .ra: .cfa -8 + ^\n\
        STACK CFI 1004 $rax: .cfa -24 + ^\n\
        STACK CFI INIT 1008 8 .cfa: $rsp 8 + .ra: .cfa -8 + ^\n",
        None,
    ),
    ("a restore alone", RESTORING, &[], b"", Some(Reason::State)),
];

/// The result, or the reason for a refusal; an error only if memory ran out.
fn why<T>(answer: Result<T, Stop<Reason>>) -> Result<Result<T, Reason>, OutOfMemory> {
    match answer {
        Ok(value) => Ok(Ok(value)),
        Err(Stop::Fault(reason)) => Ok(Err(reason)),
        Err(Stop::NoMemory) => Err(OutOfMemory),
    }
}

/// The addresses of an entry's rows, and the reason if there are none.
fn addresses(alloc: Global, fde: &Fde<'_>) -> Result<(Vec<u64>, Option<Reason>), OutOfMemory>
    requires some { 0 < fde.now.size }
    requires fits { fde.now.start + fde.now.size < 2 ^ 64 }
{
    let mut addresses = Vec::new(alloc);
    match why(rows(alloc, fde))? {
        Ok(rows) => {
            for row in rows.as_slice() {
                addresses.push(row.address)?;
            }
            Ok((addresses, None))
        }
        Err(reason) => Ok((addresses, Some(reason))),
    }
}

/// The text of an entry's records, and the reason if there are none.
fn records(alloc: Global, fde: &Fde<'_>) -> Result<(Vec<u8>, Option<Reason>), OutOfMemory>
    requires some { 0 < fde.now.size }
    requires fits { fde.now.start + fde.now.size < 2 ^ 64 }
{
    match why(translate(alloc, fde, 0))? {
        Ok(text) => Ok((text.into_vec(), None)),
        Err(reason) => Ok((Vec::new(alloc), Some(reason))),
    }
}

/// The entry has these rows and these records, or this reason.
fn expect_entry(
    rt: &impl Abort,
    alloc: Global,
    fde: &Fde<'_>,
    (row, found_at, text, reason): (&str, &[u64], &[u8], Option<Reason>),
) -> Result<(), Fail> {
    let Some(_end) = fde.start.checked_add(fde.size) else {
        return Err("a range past the last address".into());
    };
    if fde.size == 0 {
        return Err("an empty range".into());
    }
    let (places, first) = addresses(alloc, fde)?;
    let (records, second) = records(alloc, fde)?;
    let third = inspect(alloc, fde)?;
    same(rt, row, &places, found_at);
    same(rt, row, &records, text);
    same(rt, row, &[first, second, third], &[reason; 3]);
    Ok(())
}

#[test]
fn sections_have_their_rows_and_records(rt: HostRuntime) -> Result<(), Fail> {
    for (row, bytes, places, text, reason) in SECTIONS {
        let part = Part {
            bytes,
            address: 0x2000,
        };
        let found = entries(rt.alloc(), part, Sect::EhFrame)?;
        let mut good: u64 = 0;
        for k in 0..found.len() {
            if let Body::Good(fde) = found.entry(k).body {
                expect_entry(&rt, rt.alloc(), &fde, (row, places, text, reason))?;
                good = good.saturating_add(1);
            }
        }
        same(&rt, row, &[good], &[1]);
    }
    Ok(())
}
