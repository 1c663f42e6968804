//! Readers of packet files, service definitions and certificates, alone and together.

ghost use Rattle.std.specs.Prelude.{◌≡◌, IfSome, IfOk, IfErr, ◌∷◌, []};
ghost use Rattle.ttx_cycle.specs.Bounded.{most_bytes, ReadsText, CountsText};
ghost use Rattle.ttx_cycle.specs.Counters.{inner_of, faults_of};
ghost use Rattle.ttx_cycle.specs.Cycles.{slots_of};
ghost use Rattle.ttx_certificate.specs.Certificates.{fields_of};
ghost use Rattle.ttx_files.specs.Devices.{AtCycle, AtService, AtCertificate, input, failed_at, IsRight, IsFirstFailure, text_place, IsOf};
ghost use Rattle.ttx_files.specs.Texts.{viewed_by, of_text, IsUnread, ReadsPackets, ReadsServiceText, ReadsService, ReadsWitness};
ghost use Rattle.ttx_files.specs.declared.faults.TextFile.TheVariants as text;
ghost use Rattle.ttx_files.specs.Inputs.{ReadsTexts, ReadsServed, ReadsInputs};

use crate::faults::{FilesFault, TextFile};
use std::alloc::Global;
use std::io::Read;
use ttx_certificate::{Certificate, read_certificate};
use ttx_cycle::{Counted, Cycle, MOST_BYTES, TextFault, read_cycle};
use ttx_source::{Service, read_service};

/// A service definition and a certificate.
#[derive(Drop)]
pub struct Texts {
    pub service: Service,
    pub certificate: Certificate,
}

/// A packet file, and the service that it carries.
#[derive(Drop)]
pub struct Served {
    pub cycle: Cycle,
    pub service: Service,
}

/// A packet file, the service that it carries, and the certificate of both.
#[derive(Drop)]
pub struct Inputs {
    pub cycle: Cycle,
    pub service: Service,
    pub certificate: Certificate,
}

/// Reads a packet file. Its faults are those of `read_cycle`, as `Cycle`.
pub fn read_packets<R: Read>(alloc: Global, reader: &mut Counted<R>) -> Result<Cycle, FilesFault>
    ensures bytes { IfSome (R.remaining (inner_of reader.old)) (λ bytes. ReadsPackets bytes (viewed_by slots_of result)) }
    ensures own { IfErr result (IsOf (AtCycle ∷ [])) }
    ensures faults { IsFirstFailure (input AtCycle (R.remaining (inner_of reader.old)) (faults_of reader.old) (faults_of reader.new) ∷ [])
        (failed_at result) }
{
    match read_cycle(alloc, reader) {
        Ok(cycle) => Ok(cycle),
        Err(fault) => Err(FilesFault::Cycle(fault)),
    }
}

// Why a text is not read, as a fault of this text.
fn text_fault(which: TextFile, fault: TextFault) -> FilesFault
    ensures same { result ≡ of_text which fault }
    ensures own { IsOf (text_place which ∷ []) result }
    ensures unread { IsUnread which result }
{
    match fault {
        TextFault::Read => FilesFault::Read { which },
        TextFault::TooLong => FilesFault::TooLong { which },
        TextFault::NoMemory => FilesFault::NoMemory,
    }
}

/// Reads the bytes of a text of at most 4,194,304 bytes, whatever it says.
pub fn read_text<R: Read>(alloc: Global, reader: &mut Counted<R>) -> Result<Vec<u8>, TextFault>
    ensures bytes { IfSome (R.remaining (inner_of reader.old)) (λ bytes. ReadsText bytes most_bytes result) }
    ensures faults { CountsText result (faults_of reader.old) (faults_of reader.new) }
{
    ttx_cycle::read_text(alloc, reader, MOST_BYTES)
}

/// Reads the bytes of the text of a service, whatever it says. Its faults are `Read`, `TooLong` and `NoMemory`.
pub fn read_service_text<R: Read>(
    alloc: Global,
    reader: &mut Counted<R>,
) -> Result<Vec<u8>, FilesFault>
    ensures bytes { IfSome (R.remaining (inner_of reader.old)) (λ bytes. ReadsServiceText bytes result) }
    ensures own { IfErr result (IsOf (AtService ∷ [])) }
    ensures unread { IfErr result (IsUnread text.Service) }
    ensures faults { IsFirstFailure (input AtService (R.remaining (inner_of reader.old)) (faults_of reader.old) (faults_of reader.new) ∷ [])
        (failed_at result) }
{
    match read_text(alloc, reader) {
        Ok(text) => Ok(text),
        Err(fault) => Err(text_fault(TextFile::Service, fault)),
    }
}

/// Reads the text of a service definition, of at most 4,194,304 bytes. Its faults are `Service`, `Read`, `TooLong` and `NoMemory`.
pub fn read_definition<R: Read>(
    alloc: Global,
    reader: &mut Counted<R>,
) -> Result<Service, FilesFault>
    ensures bytes { IfSome (R.remaining (inner_of reader.old)) (λ bytes. ReadsService bytes result) }
    ensures own { IfErr result (IsOf (AtService ∷ [])) }
    ensures faults { IsFirstFailure (input AtService (R.remaining (inner_of reader.old)) (faults_of reader.old) (faults_of reader.new) ∷ [])
        (failed_at result) }
{
    let text = read_service_text(alloc, reader)?;
    match read_service(alloc, text.as_slice()) {
        Ok(service) => Ok(service),
        Err(error) => Err(FilesFault::Service(error)),
    }
}

/// Reads the text of a certificate, of at most 4,194,304 bytes. Its faults are `Certificate`, `Read`, `TooLong` and `NoMemory`.
pub fn read_witness<R: Read>(
    alloc: Global,
    reader: &mut Counted<R>,
) -> Result<Certificate, FilesFault>
    ensures bytes { IfSome (R.remaining (inner_of reader.old)) (λ bytes. ReadsWitness bytes (viewed_by fields_of result)) }
    ensures own { IfErr result (IsOf (AtCertificate ∷ [])) }
    ensures faults { IsFirstFailure (input AtCertificate (R.remaining (inner_of reader.old)) (faults_of reader.old) (faults_of reader.new) ∷ [])
        (failed_at result) }
{
    let text = match read_text(alloc, reader) {
        Ok(text) => text,
        Err(fault) => return Err(text_fault(TextFile::Certificate, fault)),
    };
    match read_certificate(alloc, text.as_slice()) {
        Ok(certificate) => Ok(certificate),
        Err(fault) => Err(FilesFault::Certificate(fault)),
    }
}

/// Reads a service definition, then a certificate. The second is not read if the first is refused.
pub fn read_texts<A: Read, B: Read>(
    alloc: Global,
    service: &mut Counted<A>,
    certificate: &mut Counted<B>,
) -> Result<Texts, FilesFault>
    ensures bytes { IfSome (A.remaining (inner_of service.old)) (λ a.
        IfSome (B.remaining (inner_of certificate.old)) (λ b. ReadsTexts a b result)) }
    ensures own { IfErr result (IsOf (AtService ∷ AtCertificate ∷ [])) }
    ensures right { IfOk result (λ _. IsRight AtService (A.remaining (inner_of service.old)) × IsRight AtCertificate (B.remaining (inner_of certificate.old))) }
    ensures faults { IsFirstFailure (input AtService (A.remaining (inner_of service.old)) (faults_of service.old) (faults_of service.new)
        ∷ input AtCertificate (B.remaining (inner_of certificate.old)) (faults_of certificate.old) (faults_of certificate.new) ∷ [])
        (failed_at result) }
{
    Ok(Texts {
        service: read_definition(alloc, service)?,
        certificate: read_witness(alloc, certificate)?,
    })
}

/// Reads a packet file, then a service definition. The second is not read if the first is refused.
pub fn read_served<A: Read, B: Read>(
    alloc: Global,
    cycle: &mut Counted<A>,
    service: &mut Counted<B>,
) -> Result<Served, FilesFault>
    ensures bytes { IfSome (A.remaining (inner_of cycle.old)) (λ a.
        IfSome (B.remaining (inner_of service.old)) (λ b. ReadsServed a b result)) }
    ensures own { IfErr result (IsOf (AtCycle ∷ AtService ∷ [])) }
    ensures right { IfOk result (λ _. IsRight AtCycle (A.remaining (inner_of cycle.old)) × IsRight AtService (B.remaining (inner_of service.old))) }
    ensures faults { IsFirstFailure (input AtCycle (A.remaining (inner_of cycle.old)) (faults_of cycle.old) (faults_of cycle.new)
        ∷ input AtService (B.remaining (inner_of service.old)) (faults_of service.old) (faults_of service.new) ∷ [])
        (failed_at result) }
{
    let cycle = read_packets(alloc, cycle)?;
    let service = read_definition(alloc, service)?;
    Ok(Served { cycle, service })
}

/// Reads a packet file, a service definition and a certificate, in this order. None is read after one that is refused.
pub fn read_inputs<A: Read, B: Read, C: Read>(
    alloc: Global,
    cycle: &mut Counted<A>,
    service: &mut Counted<B>,
    certificate: &mut Counted<C>,
) -> Result<Inputs, FilesFault>
    ensures bytes { IfSome (A.remaining (inner_of cycle.old)) (λ a.
        IfSome (B.remaining (inner_of service.old)) (λ b.
        IfSome (C.remaining (inner_of certificate.old)) (λ c. ReadsInputs a b c result))) }
    ensures own { IfErr result (IsOf (AtCycle ∷ AtService ∷ AtCertificate ∷ [])) }
    ensures right { IfOk result (λ _. IsRight AtCycle (A.remaining (inner_of cycle.old)) × IsRight AtService (B.remaining (inner_of service.old))
        × IsRight AtCertificate (C.remaining (inner_of certificate.old))) }
    ensures faults { IsFirstFailure (input AtCycle (A.remaining (inner_of cycle.old)) (faults_of cycle.old) (faults_of cycle.new)
        ∷ input AtService (B.remaining (inner_of service.old)) (faults_of service.old) (faults_of service.new)
        ∷ input AtCertificate (C.remaining (inner_of certificate.old)) (faults_of certificate.old) (faults_of certificate.new) ∷ [])
        (failed_at result) }
{
    let cycle = read_packets(alloc, cycle)?;
    match read_texts(alloc, service, certificate) {
        Ok(
            Texts {
                service,
                certificate,
            },
        ) => Ok(Inputs {
            cycle,
            service,
            certificate,
        }),
        Err(fault) => Err(fault),
    }
}
