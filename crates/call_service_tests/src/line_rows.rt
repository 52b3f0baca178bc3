use crate::rows::{Ask, DONE, OVER, UNWRITTEN, request};
use call_logs::Got;
use call_report::{put_carried, put_cells, put_gots};
use call_service::Service;
use outer_io::{Failed, MemSink, Writer};
use std::test::Fail;

const MOST: u64 = u64::MAX;

/// How many clients there are, the calls that are carried out, what each client got of its calls (client, number, status and value), and the
/// lines.
type Row = (
    u8,
    &'static [Ask],
    &'static [(u8, u32, u8, u64)],
    &'static [u8],
);

const ROWS: [Row; 4] = [
    (
        1,
        &[(1, 0, 1, 5), (1, 0, 2, 7)],
        &[(1, 1, DONE, 5), (1, 2, DONE, 12)],
        b"calls 1\n\
          carried 1 1 0 5 done 5\n\
          carried 1 2 0 7 done 12\n\
          got 1 1 done 5\n\
          got 1 2 done 12\n\
          cell 0 12\n\
          end\n",
    ),
    (
        1,
        &[(1, 0, 1, MOST), (1, 0, 2, 1)],
        &[(1, 1, DONE, MOST), (1, 2, OVER, MOST)],
        b"calls 1\n\
          carried 1 1 0 18446744073709551615 done 18446744073709551615\n\
          carried 1 2 0 1 over 18446744073709551615\n\
          got 1 1 done 18446744073709551615\n\
          got 1 2 over 18446744073709551615\n\
          cell 0 18446744073709551615\n\
          end\n",
    ),
    (
        7,
        &[(7, 15, 1, 3), (2, 9, 1, 0), (7, 9, 2, 4)],
        &[(2, 1, DONE, 0)],
        b"calls 7\n\
          carried 7 1 15 3 done 3\n\
          carried 2 1 9 0 done 0\n\
          carried 7 2 9 4 done 4\n\
          got 2 1 done 0\n\
          cell 9 4\n\
          cell 15 3\n\
          end\n",
    ),
    (3, &[], &[], b"calls 3\nend\n"),
];

fn fill(service: &mut Service, asks: &[Ask]) {
    let mut reply = UNWRITTEN;
    for ask in asks {
        let _ = service.handle(&request(*ask), &mut reply);
    }
}

fn put_lines(sink: &mut MemSink, service: &Service, row: &Row) -> Result<(), Failed> {
    let mut out = Writer::new(sink);
    put_carried(&mut out, row.0, service);
    for &(client, number, status, value) in row.2 {
        let got = Got {
            number,
            status,
            value,
        };
        put_gots(&mut out, client, &[got]);
    }
    put_cells(&mut out, service);
    out.finish()
}

#[test]
fn lines_stand_behind_a_report(rt: HostRuntime) -> Result<(), Fail> {
    for (i, row) in ROWS.iter().enumerate() {
        let mut service = Service::new(rt.alloc(), 3)?;
        fill(&mut service, row.1);
        let mut sink = MemSink::new(rt.alloc(), Vec::new(rt.alloc()), 99, 500)?;
        let result = put_lines(&mut sink, &service, row);
        assert!(rt; result.is_ok() && sink.written() == row.3, "row {i}");
    }
    Ok(())
}
