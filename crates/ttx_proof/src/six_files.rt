//! Reads the files of a splice: two packet files, two service definitions and two certificates.

ghost use Rattle.std.specs.Prelude.{IfOk, ◌∷◌, []};
ghost use Rattle.ttx_certificate.specs.Certificates.{fields_of};
ghost use Rattle.ttx_cycle.specs.Counters.{inner_of, faults_of};
ghost use Rattle.ttx_cycle.specs.Cycles.{slots_of};
ghost use Rattle.ttx_files.specs.Devices.{AtCycle, AtService, AtCertificate, input, failed_at, IsRight, IsFirstFailure};
ghost use Rattle.ttx_files.specs.Texts.{ReadsPackets, ReadsService, ReadsWitness};
ghost use Rattle.ttx_proof.specs.SplicingFiles.{ReadsTwo, ReadsSix};

use std::alloc::Global;
use std::io::Read;
use ttx_cycle::{Counted, Cycle};
use ttx_files::{FilesFault, read_definition, read_packets, read_witness};
use ttx_source::Service;
use ttx_witness::Certificate;

/// Two files of one kind.
#[derive(Drop)]
pub struct Two<T> {
    pub old: T,
    pub new: T,
}

/// The contents of the six files.
#[derive(Drop)]
pub struct Six {
    pub cycles: Two<Cycle>,
    pub services: Two<Service>,
    pub witnesses: Two<Certificate>,
}

fn read_cycles<A: Read, B: Read>(
    alloc: Global,
    old: &mut Counted<A>,
    new: &mut Counted<B>,
) -> Result<Two<Cycle>, FilesFault>
    ensures right { IfOk result (λ _. IsRight AtCycle (A.remaining (inner_of old.old)) × IsRight AtCycle (B.remaining (inner_of new.old))) }
    ensures faults { IsFirstFailure (input AtCycle (A.remaining (inner_of old.old)) (faults_of old.old) (faults_of old.new)
        ∷ input AtCycle (B.remaining (inner_of new.old)) (faults_of new.old) (faults_of new.new) ∷ []) (failed_at result) }
    ensures bytes { ReadsTwo ReadsPackets slots_of (A.remaining (inner_of old.old)) (B.remaining (inner_of new.old)) result }
{
    let old = read_packets(alloc, old)?;
    let new = read_packets(alloc, new)?;
    Ok(Two { old, new })
}

fn read_services<A: Read, B: Read>(
    alloc: Global,
    old: &mut Counted<A>,
    new: &mut Counted<B>,
) -> Result<Two<Service>, FilesFault>
    ensures right { IfOk result (λ _. IsRight AtService (A.remaining (inner_of old.old)) × IsRight AtService (B.remaining (inner_of new.old))) }
    ensures faults { IsFirstFailure (input AtService (A.remaining (inner_of old.old)) (faults_of old.old) (faults_of old.new)
        ∷ input AtService (B.remaining (inner_of new.old)) (faults_of new.old) (faults_of new.new) ∷ []) (failed_at result) }
    ensures bytes { ReadsTwo ReadsService (λ service. service) (A.remaining (inner_of old.old)) (B.remaining (inner_of new.old)) result }
{
    let old = read_definition(alloc, old)?;
    let new = read_definition(alloc, new)?;
    Ok(Two { old, new })
}

fn read_witnesses<A: Read, B: Read>(
    alloc: Global,
    old: &mut Counted<A>,
    new: &mut Counted<B>,
) -> Result<Two<Certificate>, FilesFault>
    ensures right { IfOk result (λ _. IsRight AtCertificate (A.remaining (inner_of old.old)) × IsRight AtCertificate (B.remaining (inner_of new.old))) }
    ensures faults { IsFirstFailure (input AtCertificate (A.remaining (inner_of old.old)) (faults_of old.old) (faults_of old.new)
        ∷ input AtCertificate (B.remaining (inner_of new.old)) (faults_of new.old) (faults_of new.new) ∷ []) (failed_at result) }
    ensures bytes { ReadsTwo ReadsWitness fields_of (A.remaining (inner_of old.old)) (B.remaining (inner_of new.old)) result }
{
    let old = read_witness(alloc, old)?;
    match read_witness(alloc, new) {
        Ok(new) => Ok(Two { old, new }),
        Err(fault) => Err(fault),
    }
}

/// Reads the six files in their order: the old one of each kind first.
pub fn read_six<A: Read, B: Read, C: Read, D: Read, E: Read, F: Read>(
    alloc: Global,
    old: &mut Counted<A>,
    new: &mut Counted<B>,
    old_service: &mut Counted<C>,
    new_service: &mut Counted<D>,
    old_certificate: &mut Counted<E>,
    new_certificate: &mut Counted<F>,
) -> Result<Six, FilesFault>
    ensures right { IfOk result (λ _. IsRight AtCycle (A.remaining (inner_of old.old)) × IsRight AtCycle (B.remaining (inner_of new.old))
        × IsRight AtService (C.remaining (inner_of old_service.old)) × IsRight AtService (D.remaining (inner_of new_service.old))
        × IsRight AtCertificate (E.remaining (inner_of old_certificate.old)) × IsRight AtCertificate (F.remaining (inner_of new_certificate.old))) }
    ensures faults { IsFirstFailure (input AtCycle (A.remaining (inner_of old.old)) (faults_of old.old) (faults_of old.new)
        ∷ input AtCycle (B.remaining (inner_of new.old)) (faults_of new.old) (faults_of new.new)
        ∷ input AtService (C.remaining (inner_of old_service.old)) (faults_of old_service.old) (faults_of old_service.new)
        ∷ input AtService (D.remaining (inner_of new_service.old)) (faults_of new_service.old) (faults_of new_service.new)
        ∷ input AtCertificate (E.remaining (inner_of old_certificate.old)) (faults_of old_certificate.old) (faults_of old_certificate.new)
        ∷ input AtCertificate (F.remaining (inner_of new_certificate.old)) (faults_of new_certificate.old) (faults_of new_certificate.new) ∷ []) (failed_at result) }
    ensures bytes { ReadsSix (A.remaining (inner_of old.old)) (B.remaining (inner_of new.old)) (C.remaining (inner_of old_service.old))
        (D.remaining (inner_of new_service.old)) (E.remaining (inner_of old_certificate.old)) (F.remaining (inner_of new_certificate.old))
        result }
{
    let cycles = match read_cycles(alloc, old, new) {
        Ok(two) => two,
        Err(fault) => return Err(fault),
    };
    let services = match read_services(alloc, old_service, new_service) {
        Ok(two) => two,
        Err(fault) => return Err(fault),
    };
    match read_witnesses(alloc, old_certificate, new_certificate) {
        Ok(witnesses) => Ok(Six {
            cycles,
            services,
            witnesses,
        }),
        Err(fault) => Err(fault),
    }
}
