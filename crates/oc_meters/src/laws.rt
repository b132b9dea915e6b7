//! What meters are told of a whole report.
ghost use Rattle.oc_meters.specs.ReadBack.{ReportIsRead};

/// Of a whole report, with the lines of its nonvolatile variables, meters are told just the items,
/// in their order.
pub fn report_is_read()
    ensures { ReportIsRead }
{}
