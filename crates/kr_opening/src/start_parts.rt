//! What is kept of replicas and seats.
ghost use Rattle.std.specs.Prelude.{◌≡◌, ◌<◌, ◌≤◌, ◌+◌, ◌^◌, length, sum, replicate, ◌++◌, All, None, IsOk, IfOk, IfSome, OnOk};
ghost use Rattle.std.specs.Option.{option_map};
ghost use Rattle.kr_provider.specs.Publication.{IsPublished};
ghost use Rattle.kr_opening.specs.Replicas.{generations_from, current_from, settings_of, rows_in, settings_rows};
ghost use Rattle.kr_opening.specs.inner.OpeningBoards.{generation_at, joined_number, next_joined_number};

use crate::generation::Generation;
use kr_base::{List, NoMemory, Shared};
use kr_config::Settings;
use kr_provider::Published;
use std::alloc::Global;

/// What a rollout keeps of its replicas and seats at the opening.
#[derive(Drop)]
pub struct StartParts {
    pub settings: List<Option<Shared<Settings>>>,
    pub generations: List<Generation>,
    pub current: Vec<Option<u32>>,
    pub held: Vec<Option<u32>>,
    pub reloads: Vec<u32>,
    /// How many generations there may be.
    pub room: u32,
}

/// Makes all of it, before the store is given up.
pub fn make(
    alloc: Global,
    replicas: &[Option<Shared<Published>>],
    seats: u32,
    reloads: &[u32],
) -> Result<StartParts, NoMemory>
    requires few { length replicas.now ≤ 16 }
    requires room { sum reloads.now ≤ 4000000 }
    ensures settings { IfOk result (λ made. rows_in made.settings.0 ≡ settings_of replicas.now) }
    ensures published { IsOk result → All (λ replica. IfSome replica IsPublished) replicas.now }
    ensures generations { IfOk result (λ made.
        made.generations.0 ≡ generations_from 0 replicas.now) }
    ensures spare { IfOk result (λ made. made.room ≤ made.generations.1) }
    ensures current { IfOk result (λ made. made.current.items ≡ current_from 0 replicas.now) }
    ensures held { IfOk result (λ made. made.held.items ≡ replicate seats None) }
    ensures reloads { IfOk result (λ made. made.reloads.items ≡ reloads.now) }
    ensures room { IfOk result (λ made. made.room ≡ length replicas.now + sum reloads.now) }
{
    let settings = share_settings(alloc, replicas)?;
    let room = replicas.len() as u32 + reloads.iter().sum::<u32>();
    let generations = share_generations(alloc, replicas, room)?;
    let current = number_replicas(alloc, replicas)?;
    let held = vec![in alloc; None; seats as usize]?;
    let reloads = Vec::from_slice(alloc, reloads)?;
    Ok(StartParts {
        settings,
        generations,
        current,
        held,
        reloads,
        room,
    })
}

/// The settings of the replicas that are in.
fn share_settings(
    alloc: Global,
    replicas: &[Option<Shared<Published>>],
) -> Result<List<Option<Shared<Settings>>>, NoMemory>
    ensures rows { IfOk result (λ settings. rows_in settings.0 ≡ settings_of replicas.now) }
    ensures published { IsOk result → All (λ replica. IfSome replica IsPublished) replicas.now }
{
    let mut settings = Vec::new(alloc);
    for replica in replicas {
        settings.push(replica_settings(replica)?)?;
    }
    Ok(List::from_vec(settings))
}

/// The settings of a replica that is in.
fn replica_settings(
    replica: &Option<Shared<Published>>,
) -> Result<Option<Shared<Settings>>, NoMemory>
    ensures rows { IfOk result (λ settings.
        settings_rows settings ≡ option_map (λ p. p.rows) replica.now) }
    ensures published { IfSome replica.now IsPublished }
{
    match replica {
        Some(published) => match published.get().settings.share() {
            Ok(settings) => Ok(Some(settings)),
            Err(NoMemory) => Err(NoMemory),
        },
        None => Ok(None),
    }
}

/// The generations of the replicas that are in, with room for so many more.
#[tactic(auto, using(crate::proofs::Sharing::made_begin))]
fn share_generations(
    alloc: Global,
    replicas: &[Option<Shared<Published>>],
    room: u32,
) -> Result<List<Generation>, NoMemory>
    requires { length replicas.now ≤ 16 }
    ensures generations { IfOk result (λ generations.
        generations.0 ≡ generations_from 0 replicas.now) }
    ensures spare { IfOk result (λ generations. room ≤ generations.1) }
{
    let mut generations = Vec::new(alloc);
    for (replica, published) in replicas.iter().enumerate() {
        add_generation(&mut generations, replica as u32, published)?;
    }
    let mut generations = List::from_vec(generations);
    generations.reserve(room as usize)?;
    Ok(generations)
}

/// Adds the generation of a replica that is in.
fn add_generation(
    generations: &mut Vec<Generation>,
    replica: u32,
    published: &Option<Shared<Published>>,
) -> Result<(), NoMemory>
    ensures { OnOk result (generations.new.items
        ≡ generations.old.items ++ generation_at replica published.now) }
{
    let Some(published) = published else {
        return Ok(());
    };
    let published = published.share()?;
    generations.push(Generation { replica, published })?;
    Ok(())
}

/// The number of each replica's generation, of those that are in.
fn number_replicas(
    alloc: Global,
    replicas: &[Option<Shared<Published>>],
) -> Result<Vec<Option<u32>>, NoMemory>
    requires { length replicas.now ≤ 16 }
    ensures { IfOk result (λ current. current.items ≡ current_from 0 replicas.now) }
{
    let mut current = Vec::new(alloc);
    let mut number = 0u32;
    for replica in replicas {
        current.push(joined_number(replica, number))?;
        number = next_joined_number(replica, number);
    }
    Ok(current)
}

/// The number, for a replica that is in.
fn joined_number(replica: &Option<Shared<Published>>, number: u32) -> Option<u32>
    ensures { result ≡ joined_number replica.now number }
{
    match replica {
        Some(_) => Some(number),
        None => None,
    }
}

/// The number of the next replica that is in.
fn next_joined_number(replica: &Option<Shared<Published>>, number: u32) -> u32
    requires { number + 1 < 2 ^ 32 }
    ensures { result ≡ next_joined_number replica.now number }
{
    match replica {
        Some(_) => number + 1,
        None => number,
    }
}
