// Climate zones, and the provinces with their degree-day values.
#![tactic(auto)]

ghost use Rattle.std.specs.Prelude.{◌≡◌};
ghost use Rattle.calendar.specs.Answers.{answer_of};
ghost use Rattle.zones.specs.Zones.{zone_call, province_call};

use numbers::Refusal;

// The most hundredths of a degree day of a zone.
const MOST_HUNDREDTHS: u32 = 1000;

const LAST_PROVINCE: u32 = 48;

// A province's degree-day value, the mean of section 1.6 of PD-02 in hundredths, and its zone.
#[derive(Clone, Copy)]
pub struct Province {
    pub mean: u32,
    pub zone: u32,
}

// The zone of a degree-day value, in hundredths. (Zones are numbers, as document 01 has them: an enum would only be turned into one.)
#[tactic(auto, unfolding(crate::specs::Zones::zone_call, crate::specs::Zones::zone_of, calendar::specs::Answers::tested))]
pub fn zone_of(hundredths: u32) -> Result<u64, Refusal>
    ensures { answer_of result ≡ zone_call hundredths }
{
    if MOST_HUNDREDTHS < hundredths {
        return Err(Refusal::OutOfRange);
    }
    Ok(match hundredths {
        ..170 => 1,
        170..240 => 2,
        240..=380 => 3,
        _ => 4,
    })
}

// The provinces in the order of section 1.6 of PD-02: a const table, as document 01 names it.
const PROVINCES: [Province; 48] = [
    Province { mean: 144, zone: 1 }, // A Coruña
    Province { mean: 117, zone: 1 }, // Alicante
    Province { mean: 56, zone: 1 }, // Almería
    Province { mean: 36, zone: 1 }, // Cádiz
    Province { mean: 118, zone: 1 }, // Castellón
    Province { mean: 139, zone: 1 }, // Córdoba
    Province { mean: 85, zone: 1 }, // Huelva
    Province { mean: 117, zone: 1 }, // Baleares
    Province { mean: 59, zone: 1 }, // Málaga
    Province { mean: 103, zone: 1 }, // Murcia
    Province { mean: 82, zone: 1 }, // Sevilla
    Province { mean: 164, zone: 1 }, // Valencia
    Province { mean: 182, zone: 2 }, // Asturias
    Province { mean: 180, zone: 2 }, // Badajoz
    Province { mean: 184, zone: 2 }, // Barcelona
    Province { mean: 200, zone: 2 }, // Bizkaia
    Province { mean: 220, zone: 2 }, // Cáceres
    Province { mean: 178, zone: 2 }, // Cantabria
    Province { mean: 215, zone: 2 }, // Gipuzkoa
    Province { mean: 200, zone: 2 }, // Jaén
    Province { mean: 221, zone: 2 }, // Ourense
    Province { mean: 196, zone: 2 }, // Pontevedra
    Province { mean: 200, zone: 2 }, // Tarragona
    Province { mean: 330, zone: 3 }, // Albacete
    Province { mean: 275, zone: 3 }, // Ciudad Real
    Province { mean: 364, zone: 3 }, // Cuenca
    Province { mean: 250, zone: 3 }, // Girona
    Province { mean: 279, zone: 3 }, // Granada
    Province { mean: 352, zone: 3 }, // Huesca
    Province { mean: 314, zone: 3 }, // La Rioja
    Province { mean: 295, zone: 3 }, // Lleida
    Province { mean: 360, zone: 3 }, // Lugo
    Province { mean: 318, zone: 3 }, // Madrid
    Province { mean: 352, zone: 3 }, // Navarra
    Province { mean: 267, zone: 3 }, // Toledo
    Province { mean: 264, zone: 3 }, // Zaragoza
    Province { mean: 402, zone: 4 }, // Araba
    Province { mean: 474, zone: 4 }, // Ávila
    Province { mean: 506, zone: 4 }, // Burgos
    Province { mean: 523, zone: 4 }, // Guadalajara
    Province { mean: 492, zone: 4 }, // León
    Province { mean: 517, zone: 4 }, // Palencia
    Province { mean: 423, zone: 4 }, // Salamanca
    Province { mean: 427, zone: 4 }, // Segovia
    Province { mean: 525, zone: 4 }, // Soria
    Province { mean: 431, zone: 4 }, // Teruel
    Province { mean: 405, zone: 4 }, // Valladolid
    Province { mean: 414, zone: 4 }, // Zamora
];

// The value and the zone of a province, numbered from 1.
#[tactic(auto, unfolding(crate::specs::Zones::province_call, crate::specs::Zones::provinces, calendar::specs::Answers::tested))]
pub fn province_of(number: u32) -> Result<Province, Refusal>
    ensures { answer_of result ≡ province_call number }
{
    if !(1..=LAST_PROVINCE).contains(&number) {
        return Err(Refusal::OutOfRange);
    }
    Ok(PROVINCES[number as usize - 1])
}
