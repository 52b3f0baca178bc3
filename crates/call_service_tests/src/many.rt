use crate::rows::{DONE, holds};
use call_service::Service;
use std::test::Fail;

/// Adds to each cell one more than its number, and then reads it by adding nothing.
fn each_cell_has_its_own_sum(service: &mut Service) -> bool {
    for cell in 0..16u8 {
        let amount = cell as u64 + 1;
        if !holds(
            service,
            &((3, cell, cell as u32 + 1, amount), Ok((DONE, amount))),
        ) {
            return false;
        }
    }
    for cell in 0..16u8 {
        if !holds(
            service,
            &((3, cell, cell as u32 + 17, 0), Ok((DONE, cell as u64 + 1))),
        ) || service.cell(cell) != cell as u64 + 1
        {
            return false;
        }
    }
    true
}

#[test]
fn sixteen_cells_are_apart(rt: HostRuntime) -> Result<(), Fail> {
    let mut service = Service::new(rt.alloc(), 32)?;
    assert!(rt; each_cell_has_its_own_sum(&mut service));
    Ok(())
}

/// The seven clients, and what each has added with those before it: a client adds its number.
const CLIENTS: [(u8, u8); 7] = [(1, 1), (2, 3), (3, 6), (4, 10), (5, 15), (6, 21), (7, 28)];

/// Makes the next call of each client on one cell after this many calls of each. Each call is sent this often.
fn round(service: &mut Service, before: u16, repeats: u32) -> bool {
    let number = before as u32 + 1;
    for (client, added) in CLIENTS {
        let value = 28 * before as u64 + added as u64;
        for _ in 0..repeats {
            if !holds(
                service,
                &((client, 5, number, client as u64), Ok((DONE, value))),
            ) {
                return false;
            }
        }
    }
    true
}

#[test]
fn seven_clients_add_the_same_at_any_number_of_repeats(rt: HostRuntime) -> Result<(), Fail> {
    for repeats in 1..5 {
        let mut service = Service::new(rt.alloc(), 7000)?;
        for before in 0..1000 {
            assert!(rt;
                round(&mut service, before, repeats),
                "{before} at {repeats} repeats"
            );
        }
        assert!(rt; service.entry(6999).map(|call| call.value) == Some(28_000));
        assert!(rt; service.entry(7000).is_none());
    }
    Ok(())
}
