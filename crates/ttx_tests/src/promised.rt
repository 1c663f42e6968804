//! Plans that keep the promises of a service.

use std::test::Fail;
use ttx_page::Class;
use ttx_plan::{Receivers, plan_spread};
use ttx_promise::{
    Detail, LatePage, PromiseFault, Reported, Viewers, late_lines, plan_promises, promised_waits,
    report_promises, report_promises_with, some_late,
};
use ttx_source::{read_promises, read_service, read_stays};

// Three pages: one that any cycle sends in time, one that none does, and one that none does and is sent twice.
static TEXT: &[u8] = b"lines = 4\nserial = true\n[[page]]\nnumber = \"100\"\nwithin = 20000\n\
    [[page]]\nnumber = \"101\"\nwithin = 0.02\n[[page]]\nnumber = \"102\"\nwithin = 0.02\noften = 2\n";

pub(crate) static VIEWERS: Viewers = Viewers {
    receivers: Receivers {
        class: Class::Any,
        late: false,
    },
    repeat: 1,
};

#[test]
fn pages_are_raised_as_far_as_they_may(rt: HostRuntime) -> Result<(), Fail> {
    let Ok(mut service) = read_service(rt.alloc(), TEXT) else {
        panic!(rt; "there is no service");
    };
    let Ok(promises) = read_promises(rt.alloc(), TEXT) else {
        panic!(rt; "there are no promises");
    };
    let Err(PromiseFault::Late { pages }) = plan_promises(
        rt.alloc(),
        &mut service,
        VIEWERS,
        &promises,
    ) else {
        panic!(rt; "there is a plan");
    };
    assert!(rt; pages.len() == 2);
    assert!(rt; service.pages().len() == 3);
    assert!(rt; service.often(0) == 1 && service.often(1) == 8 && service.often(2) == 2);
    let Some(first) = promises.get(0) else {
        panic!(rt; "there is no promise");
    };
    let kept = [*first];
    let Ok(_) = plan_promises(rt.alloc(), &mut service, VIEWERS, &kept) else {
        panic!(rt; "the promise is not kept");
    };
    Ok(())
}

#[test]
fn lines_of_late_pages(rt: HostRuntime) -> Result<(), Fail> {
    let Ok(service) = read_service(rt.alloc(), TEXT) else {
        panic!(rt; "there is no service");
    };
    let Some(page) = service.pages().get(0) else {
        panic!(rt; "there is no page");
    };
    let late = [LatePage {
        page: page.id(),
        fields: 200,
        promise: 150,
    }];
    let text = late_lines(rt.alloc(), &late)?;
    assert!(rt; text.as_str() == "late 100/0000 200 fields of 150\n");
    Ok(())
}

// Two pages laid out by hand: a block has a page header, 4 empty slots, 23 rows and X/27/0, 29 slots; two of them and the time-filling header
// make 59, so a period has 60 slots. From a page header to the end of the page's next block it is 60 + 28 slots, 22 fields.
pub(crate) static TWO: &[u8] =
    b"lines = 4\nserial = true\n[[page]]\nnumber = \"100\"\nwithin = 20000\n\
    [[page]]\nnumber = \"101\"\nwithin = 0.02\n";

static ONE: &[u8] = b"lines = 4\nserial = true\n[[page]]\nnumber = \"100\"\nwithin = 1\n";

#[test]
fn waits_stand_beside_promises(rt: HostRuntime) -> Result<(), Fail> {
    let Ok(service) = read_service(rt.alloc(), TWO) else {
        panic!(rt; "there is no service");
    };
    let Ok(promises) = read_promises(rt.alloc(), TWO) else {
        panic!(rt; "there are no promises");
    };
    let Ok(cycle) = plan_spread(rt.alloc(), &service, VIEWERS.receivers) else {
        panic!(rt; "there is no plan");
    };
    let Ok(report) = report_promises(rt.alloc(), &cycle, &service, Class::Any, 1, &promises) else {
        panic!(rt; "there is no report");
    };
    assert!(rt;
        report.text.as_str()
            == "100/0000 22 fields 0.44 s of 1000000\n101/0000 22 fields 0.44 s late: 0.02 s\nall 22 fields 0.44 s\n"
    );
    assert!(rt; report.late && report.deadline == Some(22));
    let Ok(all) = promised_waits(rt.alloc(), &cycle, &service, Class::Any, 1, &promises) else {
        panic!(rt; "there are no waits");
    };
    assert!(rt; all.len() == 2 && !all[0].is_late() && all[1].is_late() && some_late(&all));
    Ok(())
}

#[test]
fn pages_on_the_air_alone_are_named(rt: HostRuntime) -> Result<(), Fail> {
    let (Ok(planned), Ok(service)) = (read_service(rt.alloc(), TWO), read_service(rt.alloc(), ONE))
    else {
        panic!(rt; "there is no service");
    };
    let Ok(cycle) = plan_spread(rt.alloc(), &planned, VIEWERS.receivers) else {
        panic!(rt; "there is no plan");
    };
    let Ok(report) = report_promises(rt.alloc(), &cycle, &service, Class::Any, 1, &[]) else {
        panic!(rt; "there is no report");
    };
    assert!(rt;
        report.text.as_str()
            == "100/0000 22 fields 0.44 s row 21\nall 22 fields 0.44 s\nnot in the service: 101/0000\n"
    );
    assert!(rt; !report.late);
    Ok(())
}

// From a page header to the next one it is a period, to row 1 of the next block five slots more.
#[test]
fn items_stand_under_promised_pages(rt: HostRuntime) -> Result<(), Fail> {
    let Ok(service) = read_service(rt.alloc(), TWO) else {
        panic!(rt; "there is no service");
    };
    let Ok(promises) = read_promises(rt.alloc(), TWO) else {
        panic!(rt; "there are no promises");
    };
    let Ok(cycle) = plan_spread(rt.alloc(), &service, VIEWERS.receivers) else {
        panic!(rt; "there is no plan");
    };
    let reported = Reported {
        class: Class::Any,
        repeat: 1,
        detail: Detail::Items,
    };
    let Ok(report) = report_promises_with(rt.alloc(), &cycle, &service, &promises, reported) else {
        panic!(rt; "there is no report");
    };
    let begin =
        "100/0000 22 fields 0.44 s of 1000000\n100/0000 head 15 fields 0.30 s\n100/0000 row 1 17 fields 0.34 s\n";
    assert!(rt; report.text.as_str().starts_with(begin));
    assert!(rt; report.late && report.deadline == Some(22));
    Ok(())
}

// Two subpages of one number, of which the second says for how long each stays, and a page that has a time of its own.
static STAYING: &[u8] = b"lines = 4\nserial = true\n[[page]]\nnumber = \"100\"\nsub = \"0001\"\n\
    [[page]]\nnumber = \"100\"\nsub = \"0002\"\nstays = 8.5\n[[page]]\nnumber = \"101\"\nwithin = 20\n";

#[test]
fn stays_are_read(rt: HostRuntime) {
    let Ok(stays) = read_stays(rt.alloc(), STAYING) else {
        panic!(rt; "there are no stays");
    };
    let Some(stay) = stays.get(0) else {
        panic!(rt; "no page has stays");
    };
    assert!(rt; stays.len() == 1 && stay.page == 1 && stay.fields == 425);
    assert!(rt; read_stays(rt.alloc(), b"lines").is_err());
}
