//! How a source of a table is received.
ghost use Rattle.std.specs.Prelude.{◌≡◌, IfOk};
ghost use Rattle.ghes_nmi.specs.Receive.{receive_of, receive_seen, receive_refusal};
ghost use Rattle.std.specs.Result.{result_err};

use crate::{AckRule, Receive};
use apei_base::GasError;
use apei_hest::Ghes;

impl Receive {
    /// How a source of a table is received. It is refused where one of its registers names no region: of an enabled source
    /// of an accepted table none is.
    pub fn of(ghes: &Ghes) -> Result<Receive, GasError>
        ensures value { IfOk result (λ receive. receive_seen receive ≡ receive_of ghes.now) }
        ensures refused { result_err result ≡ receive_refusal ghes.now }
    {
        let status = ghes.status.check()?;
        let ack = match ghes.ack {
            None => None,
            Some(rule) => Some(AckRule {
                register: rule.register.check()?,
                bit_offset: rule.register.bit_offset,
                preserve: rule.preserve,
                write: rule.write,
            }),
        };
        Ok(Receive {
            status,
            limit: ghes.limit(),
            ack,
        })
    }
}
