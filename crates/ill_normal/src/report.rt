//! The report on a message that is refused.
ghost use Rattle.std.specs.Prelude.{List, [], ◌∷◌, Option};
ghost use Rattle.ill_normal.specs.declared.report.RefusalReport.{RefusalReport};

use crate::messages::MessagePlace;
use ill_inputs::RunFault;
use ill_schema::Refusal;

/// A message that is refused.
#[derive(Clone, Copy, Debug, PartialEq, Eq)]
pub struct RefusalReport {
    /// Its number in the input, from 1. Messages that are refused count.
    pub message: u32,
    /// The number of octets of the input that come before it; 18,446,744,073,709,551,615 where they are more.
    pub offset: u64,
    /// The offset in the message, and the cause.
    pub refusal: Refusal,
    /// The number of its octets, or 18,446,744,073,709,551,615 where they are more; None where its end is unknown. Then the input is read no
    /// further.
    pub octets: Option<u64>,
}

impl RefusalReport {
    ghost use Rattle.std.specs.Prelude.{◌≡◌};
    ghost use Rattle.ill_normal.specs.Items.{report};

    /// The report of the message at a position, whose number of octets is known or not.
    ///
    /// # Examples
    ///
    /// ```
    /// let report = RefusalReport::new(position, refusal, Some(2));
    /// ```
    #[inline(always)]
    pub fn new(position: MessagePlace, refusal: Refusal, octets: Option<u64>) -> RefusalReport
        ensures { result ≡ report position refusal octets }
    {
        RefusalReport {
            message: position.number,
            offset: position.offset,
            refusal,
            octets,
        }
    }
}

/// A receiver of reports.
pub trait ReportRefusals {
    ghost use Rattle.std.specs.Prelude.{◌≡◌, IfErr, OnOk, OnErr};
    ghost use Rattle.ill_inputs.specs.declared.run_fault.RunFault.{RunFault};
    ghost use Rattle.ill_normal.specs.Items.{Adds, ComesWith};

    // The reports so far, in order, where they are known.
    ghost reported: { Self → Option (List RefusalReport) };

    /// Takes a report, and the octets of the message: the first 1,048,576 where it has more, and those that were read where its end is
    /// unknown. The caller promises that they are.
    ///
    /// # Errors
    ///
    /// `NotReported`: the receiver took no report, and the work stops. It can't write, or wants no more of them.
    fn report(&mut self, report: RefusalReport, octets: &[u8]) -> Result<(), RunFault>
        requires { ComesWith report octets.now }
        ensures taken { OnOk result (Adds (reported self.old) (reported self.new) (report ∷ [])) }
        ensures refused { OnErr result (Adds (reported self.old) (reported self.new) []) }
        ensures fault { IfErr result (λ fault. fault ≡ RunFault.NotReported) };
}

/// A receiver of no reports, for work that reports nothing.
#[derive(Clone, Copy, Debug)]
pub struct NoReports;

impl ReportRefusals for NoReports {
    ghost use Rattle.std.specs.Prelude.{None};

    ghost reported = { λ _. None };

    fn report(&mut self, _report: RefusalReport, _octets: &[u8]) -> Result<(), RunFault> {
        Ok(())
    }
}
