//! The command `kit`.
ghost use Rattle.std.specs.Prelude.{◌≡◌, ◌≢◌, IfOk};
ghost use Rattle.eid_base.specs.Seen.{SinkSeen};
ghost use Rattle.eid_cvc.specs.Certificates.{IsCertificate};
ghost use Rattle.eid_cvc.specs.View.{body_view};
ghost use Rattle.eid_cvc.specs.Writing.{IsWritable, certificate_with, written_certificate};
ghost use Rattle.eid_perso.specs.Kit.{kit_view};
ghost use Rattle.eid.specs.Commands.{Kit};
ghost use Rattle.eid.specs.Kit.{kit_signature};
ghost use Rattle.eid.specs.Works.{Meets};

use eid_base::Folder;
use eid_copro::{Coprocessor, ModelCoprocessor};
use eid_inputs::{Exit, load, store_file};
use eid_perso::{KitError, KitPlan, kit_of};
use std::alloc::Global;

/// The certificate of a plan, signed by a model coprocessor of its own, which never fails.
fn certificate_of(alloc: Global, plan: &KitPlan) -> Result<Vec<u8>, KitError>
    requires { IsWritable (body_view plan.now.body) }
    ensures bytes { IfOk result (λ bytes. bytes.items ≡ written_certificate (body_view plan.now.body) (kit_signature (kit_view plan.now))) }
    ensures reads { IfOk result (λ bytes. IsCertificate bytes.items (certificate_with (body_view plan.now.body) (kit_signature (kit_view plan.now)))) }
{
    let mut copro = ModelCoprocessor::new(alloc, 0);
    if copro.make_room(1).is_err() {
        return Err(KitError::NoMemory);
    }
    kit_of(alloc, plan, &mut copro)
}

/// Makes the test certificate of a configuration: reads and checks the configuration, and stores the certificate, signed
/// as the model coprocessor signs. Prints nothing, whatever the sink is.
pub fn kit<F: Folder>(alloc: Global, config: &str, file: &str, folder: &mut F) -> Exit
    ensures meets { (sink : SinkSeen) → Meets (Kit config.now file.now) (F.seen folder.old) (F.seen folder.new) sink sink result }
    ensures faults { result ≢ Exit.FileFault → (F.seen folder.new).faults ≡ (F.seen folder.old).faults }
{
    let plan = match load::<KitPlan, F>(alloc, folder, config) {
        Ok(plan) => plan,
        Err(exit) => return exit,
    };
    let Ok(bytes) = certificate_of(alloc, &plan) else {
        return Exit::NoMemory;
    };
    store_file(folder, file, bytes.as_slice())
}
