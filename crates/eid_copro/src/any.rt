use crate::ask::Ask;
use crate::coprocessor::{CoproFault, Coprocessor};
use crate::model::ModelCoprocessor;
use crate::script::ScriptCoprocessor;
use eid_base::{NoMemory, Point, Secret, Signature};

/// A coprocessor of either kind, which does what the one that it holds does.
#[derive(Drop)]
pub enum AnyCopro {
    Model(ModelCoprocessor),
    Script(ScriptCoprocessor),
}

impl Coprocessor for AnyCopro {
    ghost use Rattle.eid_copro.specs.AnySeen.{any_seen};
    ghost use Rattle.eid_copro.specs.declared.any.AnyCopro.TheVariants.{Model, Script};

    ghost seen = { any_seen };

    fn make_room(&mut self, asks: usize) -> Result<(), NoMemory> {
        match self {
            AnyCopro::Model(model) => model.make_room(asks),
            AnyCopro::Script(script) => script.make_room(asks),
        }
    }

    fn log(&self) -> &[Ask] {
        match self {
            AnyCopro::Model(model) => model.log(),
            AnyCopro::Script(script) => script.log(),
        }
    }

    fn nonce(&mut self) -> Result<[u8; 16], CoproFault> {
        match self {
            AnyCopro::Model(model) => model.nonce(),
            AnyCopro::Script(script) => script.nonce(),
        }
    }

    fn challenge(&mut self) -> Result<[u8; 8], CoproFault> {
        match self {
            AnyCopro::Model(model) => model.challenge(),
            AnyCopro::Script(script) => script.challenge(),
        }
    }

    fn pair(&mut self, base: Option<&Point>) -> Result<(Secret, Point), CoproFault> {
        match self {
            AnyCopro::Model(model) => model.pair(base),
            AnyCopro::Script(script) => script.pair(base),
        }
    }

    fn map(
        &mut self,
        nonce: &[u8; 16],
        secret: &Secret,
        peer: &Point,
    ) -> Result<Option<Point>, CoproFault> {
        match self {
            AnyCopro::Model(model) => model.map(nonce, secret, peer),
            AnyCopro::Script(script) => script.map(nonce, secret, peer),
        }
    }

    fn agree(&mut self, secret: &Secret, peer: &Point) -> Result<Option<[u8; 32]>, CoproFault> {
        match self {
            AnyCopro::Model(model) => model.agree(secret, peer),
            AnyCopro::Script(script) => script.agree(secret, peer),
        }
    }

    fn verify(
        &mut self,
        key: &Point,
        digest: &[u8; 32],
        signature: &Signature,
    ) -> Result<bool, CoproFault> {
        match self {
            AnyCopro::Model(model) => model.verify(key, digest, signature),
            AnyCopro::Script(script) => script.verify(key, digest, signature),
        }
    }

    fn sign(&mut self, secret: &Secret, digest: &[u8; 32]) -> Result<Signature, CoproFault> {
        match self {
            AnyCopro::Model(model) => model.sign(secret, digest),
            AnyCopro::Script(script) => script.sign(secret, digest),
        }
    }

    ghost keeps_to_told = { elim [ Model model ↦ model.answered | Script script ↦ script.answered ] };
}
