//! Planned cycles of the worked service.

use crate::base::{self, HEADER, SERVICE, TIME_FILLING, beginning};
use std::test::Fail;
use ttx_page::Class;
use ttx_plan::{plan, plan_for};
use ttx_source::read_service;

#[test]
fn plans_of_the_worked_service(rt: HostRuntime) -> Result<(), Fail> {
    let Ok(service) = read_service(rt.alloc(), SERVICE) else {
        panic!(rt; "there is no service");
    };
    let Ok(cycle) = plan(rt.alloc(), &service) else {
        panic!(rt; "there is no plan");
    };
    let wanted = base::slots(rt.alloc())?;
    assert!(rt; cycle.slots().as_flattened() == wanted.as_slice().as_flattened());
    let Ok(cycle) = plan_for(rt.alloc(), &service, Class::Clearing) else {
        panic!(rt; "there is no plan");
    };
    let wanted = [
        beginning(&HEADER),
        [0; 42],
        [0; 42],
        beginning(&TIME_FILLING),
    ];
    assert!(rt; cycle.slots().as_flattened() == wanted.as_flattened());
    Ok(())
}
